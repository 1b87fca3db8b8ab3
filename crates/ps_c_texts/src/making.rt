//! What is made of files, put into the caller's room.
ghost use Rattle.std.specs.Prelude.{◌≡◌, IfErr, IfOk, None, OnErr, OnOk, length};
ghost use Rattle.ps_resolve.specs.Sources.{contents};
ghost use Rattle.ps_report.specs.Reported.{reported};
ghost use Rattle.ps_report.specs.Reports.{IsReport};
ghost use Rattle.ps_texts.specs.Paths.{paths_in};
ghost use Rattle.ps_c_link.specs.Rooms.{RoomBeginsWith};
ghost use Rattle.ps_texts.specs.Texts.{report_bytes};
ghost use Rattle.ps_texts.specs.declared.kinds.NamedText.TheVariants.{OfReport};
ghost use Rattle.ps_texts.specs.declared.kinds.TextKind.TheVariants.{Named};
ghost use Rattle.ps_c_texts.specs.Checks.{told_report, told_verdict as told_verdict_spec};
ghost use Rattle.ps_c_texts.specs.Kinds.{report_text as report_text_spec};
ghost use Rattle.ps_c_texts.specs.Printed.{IsPut, WhyBytesUnput, WhyUnput};

use crate::kinds::report_text;
use crate::room::put;
use ps_c_link::{Done, Unput, Verdict};
use ps_report::{Report, Verdict as ReportVerdict, check};
use ps_texts::{Form, NamedFiles, PrintedOfReport, Refusal, ReportText, TextKind, Unmade, text_of};
use ps_words::Name;
use ps_writing::{Text, in_memory};
use std::alloc::{AllocError, Allocator};

/// Puts bytes in the room, and returns how many they are.
fn put_bytes(bytes: &[u8], room: &mut [u8]) -> Result<usize, Unput>
    ensures text { OnOk result (RoomBeginsWith bytes.now room.old room.new) }
    ensures size { IfOk result (λ size. size ≡ length bytes.now) }
    ensures unput { IfErr result (WhyBytesUnput bytes.now room.old) }
    ensures untouched { OnErr result (room.new ≡ room.old) }
{
    match put(bytes, room) {
        Ok(size) => Ok(size),
        Err(small) => Err(Unput::TooSmall(small)),
    }
}

/// Makes a text in memory, puts it in the room, and returns how many bytes it has.
fn put_text<T: Text, A: Allocator + Copy>(
    alloc: A,
    text: &T,
    room: &mut [u8],
) -> Result<usize, Unput>
    ensures text { OnOk result (RoomBeginsWith (T.bytes text.now) room.old room.new) }
    ensures size { IfOk result (λ size. size ≡ length (T.bytes text.now)) }
    ensures unput { IfErr result (WhyBytesUnput (T.bytes text.now) room.old) }
    ensures untouched { OnErr result (room.new ≡ room.old) }
{
    match in_memory(alloc, text) {
        Ok(made) => put_bytes(made.as_slice(), room),
        Err(_) => Err(Unput::Unmade(Unmade::Memory)),
    }
}

/// Puts what is printed of a report in the room, and returns how many bytes it has.
fn put_printed<A: Allocator + Copy>(
    alloc: A,
    what: ReportText,
    form: Form,
    report: &Report<'_, A>,
    room: &mut [u8],
) -> Result<usize, Unput>
    ensures text { OnOk result (RoomBeginsWith (report_bytes what form (reported report.now))
        room.old room.new) }
    ensures size { IfOk result (λ size. size
        ≡ length (report_bytes what form (reported report.now))) }
    ensures unput { IfErr result (WhyBytesUnput (report_bytes what form (reported report.now))
        room.old) }
    ensures untouched { OnErr result (room.new ≡ room.old) }
{
    match (what, form) {
        // The lines are in memory.
        (ReportText::Whole, Form::Lines) => put_bytes(report.text.as_bytes(), room),
        _ => put_text(alloc, &PrintedOfReport { what, form, report }, room),
    }
}

/// What a link of files with this verdict comes to, where a fault is about what has this name.
fn told_verdict(verdict: ReportVerdict, name: Option<Name>) -> Verdict
    ensures { result ≡ told_verdict_spec verdict name }
{
    match verdict {
        ReportVerdict::Links(summary) => Verdict::Links(summary),
        ReportVerdict::Refused(fault) => Verdict::Refused(Refusal { fault, name }),
    }
}

/// What is told of a report of which so many bytes were put in a room.
fn told<A: Allocator + Copy>(report: &Report<'_, A>, size: usize) -> Done
    ensures { result ≡ told_report (reported report.now) size }
{
    Done::Report {
        verdict: told_verdict(report.verdict, report.name),
        warnings: report.warnings(),
        size,
    }
}

/// The report on these files.
#[inline(never)]
fn report_on<'a, A: Allocator + Copy>(
    alloc: A,
    files: &NamedFiles<'a>,
) -> Result<Report<'a, A>, AllocError>
    ensures { IfOk result (λ report. IsReport (paths_in files.now) files.now.host.now
        (contents files.now.libs.now) (reported report)) }
{
    check(alloc, files)
}

/// Puts what is printed of a report on these files in the room. The verdict that is told, and the
/// number of warnings, are those of this report.
fn put_told<A: Allocator + Copy>(
    alloc: A,
    what: ReportText,
    form: Form,
    files: &NamedFiles<'_>,
    report: &Report<'_, A>,
    room: &mut [u8],
) -> Result<Done, Unput>
    requires { IsReport (paths_in files.now) files.now.host.now (contents files.now.libs.now)
        (reported report.now) }
    ensures put { IfOk result (IsPut (Named (OfReport what form)) (paths_in files.now)
        files.now.host.now (contents files.now.libs.now) room.old room.new) }
    ensures unput { IfErr result (WhyUnput (Named (OfReport what form)) room.old
        (paths_in files.now) files.now.host.now (contents files.now.libs.now)) }
    ensures untouched { OnErr result (room.new ≡ room.old) }
{
    match put_printed(alloc, what, form, report, room) {
        Ok(size) => Ok(told(report, size)),
        Err(why) => Err(why),
    }
}

/// Puts what is printed of the report on these files in the room.
#[inline(never)]
#[tactic(auto, using(crate::proofs::PutTexts::report_lacks))]
fn put_report<A: Allocator + Copy>(
    alloc: A,
    what: ReportText,
    form: Form,
    files: &NamedFiles<'_>,
    room: &mut [u8],
) -> Result<Done, Unput>
    ensures put { IfOk result (IsPut (Named (OfReport what form)) (paths_in files.now)
        files.now.host.now (contents files.now.libs.now) room.old room.new) }
    ensures unput { IfErr result (WhyUnput (Named (OfReport what form)) room.old
        (paths_in files.now) files.now.host.now (contents files.now.libs.now)) }
    ensures untouched { OnErr result (room.new ≡ room.old) }
{
    match report_on(alloc, files) {
        Ok(report) => put_told(alloc, what, form, files, &report, room),
        Err(_) => Err(Unput::Unmade(Unmade::Memory)),
    }
}

/// Puts a text of these files in the room that is not made of a report.
#[inline(never)]
#[tactic(auto, using(crate::proofs::PutTexts::other_put, crate::proofs::PutTexts::other_unput, crate::proofs::PutTexts::other_unmade))]
fn put_other<A: Allocator + Copy>(
    alloc: A,
    kind: TextKind,
    files: &NamedFiles<'_>,
    room: &mut [u8],
) -> Result<Done, Unput>
    requires { report_text_spec kind ≡ None }
    ensures put { IfOk result (IsPut kind (paths_in files.now) files.now.host.now
        (contents files.now.libs.now) room.old room.new) }
    ensures unput { IfErr result (WhyUnput kind room.old (paths_in files.now)
        files.now.host.now (contents files.now.libs.now)) }
    ensures untouched { OnErr result (room.new ≡ room.old) }
{
    match text_of(alloc, kind, files) {
        Ok(text) => match put_text(alloc, &text, room) {
            Ok(size) => Ok(Done::Text(size)),
            Err(why) => Err(why),
        },
        Err(why) => Err(Unput::Unmade(why)),
    }
}

/// Makes a text of these files, and puts it in the room. Of a text that has no names of files,
/// theirs are not looked at.
#[tactic(auto, using(crate::proofs::PutTexts::is_report_put, crate::proofs::PutTexts::is_report_unput))]
pub(crate) fn put_made<A: Allocator + Copy>(
    alloc: A,
    kind: TextKind,
    files: &NamedFiles<'_>,
    room: &mut [u8],
) -> Result<Done, Unput>
    ensures put { IfOk result (IsPut kind (paths_in files.now) files.now.host.now
        (contents files.now.libs.now) room.old room.new) }
    ensures unput { IfErr result (WhyUnput kind room.old (paths_in files.now)
        files.now.host.now (contents files.now.libs.now)) }
    ensures untouched { OnErr result (room.new ≡ room.old) }
{
    match report_text(kind) {
        Some((what, form)) => put_report(alloc, what, form, files, room),
        None => put_other(alloc, kind, files, room),
    }
}
