ghost use Rattle.std.specs.Prelude.{◌≡◌, ◌≤◌, length, IfOk, IfErr, OnOk, OnErr};
ghost use Rattle.ps_resolve.specs.Sources.{contents};
ghost use Rattle.std.specs.Io.KnownBytes.{Appends};
ghost use Rattle.ps_resolve.specs.Plans.{IsPlan, IsStopped};
ghost use Rattle.ps_resolve.specs.Standing.{NoneStands};
ghost use Rattle.ps_writing.specs.Adding.{Adds};
ghost use Rattle.ps_linkfile.specs.LinkedFile.{summary_of};
ghost use Rattle.ps_linkfile.specs.MapText.{map_in, map_json_in, map_json_of, map_of, plan_rows};
ghost use Rattle.ps_linkfile.specs.Writing.{file_in, summary_in, IsReady, StandsFor};
ghost use Rattle.ps_writing.specs.Prefixes.{AppendsPrefix};
ghost use Rattle.ps_writing.specs.declared.write_fault.WriteFault.{WriteFault};
ghost use Rattle.ps_linkfile.specs.declared.error.LinkError.TheVariants.{Write as WriteFailed};
ghost use Rattle.ps_linkfile.specs.Outcomes.{AppendsLinkedFile, HasUsedNumber, NamesFirst, IsUnprepared, IsUnlinked, LeavesUntouched, LeavesPrefix, error_of};
ghost use Rattle.ps_writing.specs.Counts.{AreAtMost, IfDevice, IfStalled, NoneFailed, OneError, OneStall, RisesByBytes, RisesByPieces};

use crate::block_layout::{MAX_FILE_BLOCKS, lay_out};
use crate::error::LinkError;
use crate::map::add_map;
use crate::summary::Summary;
use crate::writing::write_file;
use ps_laws::{bytes_are_linked, first_of_all};
use ps_resolve::{Plan, Reading, Stop, resolve, resolve_reading, slot_names_are_whole};
use ps_writing::{ByWriter, Counts, Form, TextWriter, ToldWriter, WriteFault};
use std::alloc::{Allocator, Global};
use std::io::Write;
use std::marker::Model;

/// A link that was checked and can be written, any number of times. It has views of the inputs, and
/// no copy of them.
#[derive(Drop)]
pub struct Linked<'a, A: Allocator + Copy = Global> {
    plan: Plan<'a, A>,
}

impl<'a, A: Allocator + Copy> Model for Linked<'a, A> {
    ghost use Rattle.ps_resolve.specs.Plans.{Planned};
    ghost use Rattle.ps_linkfile.specs.Writing.{IsReady};

    ghost Value = { Planned };

    ghost view = { λ l. l.plan };

    ghost invariant = { λ l. IsReady l.plan };
}

impl<'a, A: Allocator + Copy> Linked<'a, A> {
    /// What the linked file has, in numbers, before it is written: its segments, the words of all
    /// its private variables, and its blocks of 512 bytes, the segment dictionary's counted, of
    /// which there are at most `MAX_FILE_BLOCKS`. So many bytes `write` writes.
    #[tactic(auto, using(crate::proofs::Blocks::few_codes, crate::proofs::Blocks::few_blocks))]
    pub fn summary(&self) -> Summary
        ensures value { result ≡ summary_in self.now }
        ensures bounded { result.blocks ≤ MAX_FILE_BLOCKS }
    {
        Summary {
            segments: self.plan.sources().len(),
            private_words: self.plan.private_words(),
            blocks: lay_out(&self.plan).blocks,
        }
    }

    /// Writes the linked file, and returns what it has. It takes no memory.
    ///
    /// Refuses `Device` where a write returned an error, which is not repeated, and `Stalled` where
    /// a write of at least one byte took none. The writer then has a prefix of the linked file.
    #[tactic(auto, using(ps_writing::proofs::Prefixes::on_err_always))]
    pub fn write<W: Write>(&self, out: &mut W) -> Result<Summary, WriteFault>
        ensures file { OnOk result (Appends (W.contents out.old) (W.contents out.new)
            (file_in self.now)) }
        ensures summary { IfOk result (λ s. s ≡ summary_in self.now) }
        ensures prefix { OnErr result (AppendsPrefix (W.contents out.old) (W.contents out.new)
            (file_in self.now)) }
    {
        write_file(&self.plan, out, &mut Counts::new())?;
        Ok(self.summary())
    }

    /// Writes the linked file as `write` does, by calls of `told_write` alone.
    ///
    /// Each count of `out` is at most 4294967296 before. `writes` rises by no more than the bytes
    /// of the linked file, and by no more than its blocks and the rise of `shorts` together. After
    /// Ok neither `errors` nor `stalls` has risen. Refuses `Device` where a write returned an
    /// error, which is not repeated: `errors` has then risen by one, and `stalls` not. Refuses
    /// `Stalled` where a write of at least one byte took none: `stalls` has then risen by one, and
    /// `errors` not. The writer then has a prefix of the linked file.
    #[tactic(auto, using(ps_writing::proofs::Prefixes::on_err_always, ps_writing::proofs::Rising::by_pieces))]
    pub fn write_told<W: ToldWriter>(&self, out: &mut W) -> Result<Summary, WriteFault>
        requires { AreAtMost (W.counts out.old) 4294967296 }
        ensures file { OnOk result (Appends (W.contents out.old) (W.contents out.new)
            (file_in self.now)) }
        ensures summary { IfOk result (λ s. s ≡ summary_in self.now) }
        ensures prefix { OnErr result (AppendsPrefix (W.contents out.old) (W.contents out.new)
            (file_in self.now)) }
        ensures bytes { RisesByBytes (W.counts out.old) (W.counts out.new)
            (length (file_in self.now)) }
        ensures blocks { RisesByPieces (W.counts out.old) (W.counts out.new)
            (summary_in self.now).blocks }
        ensures ok { OnOk result (NoneFailed (W.counts out.old) (W.counts out.new)) }
        ensures device { IfErr result (λ e. IfDevice e
            (OneError (W.counts out.old) (W.counts out.new))) }
        ensures stalled { IfErr result (λ e. IfStalled e
            (OneStall (W.counts out.old) (W.counts out.new))) }
    {
        write_file(&self.plan, out, &mut ByWriter)?;
        Ok(self.summary())
    }

    /// The plan of the link.
    pub(crate) fn plan(&self) -> &Plan<'a, A>
        ensures plan { result.now ≡ self.now }
        ensures ready { IsReady result.now }
    {
        &self.plan
    }

    /// Adds the map of the link, but for the end of a document.
    pub(crate) fn add_map<S: TextWriter>(&self, text: &mut S, form: Form)
        ensures { Adds S.added text.old (plan_rows form self.now) text.new }
    {
        add_map(text, form, &self.plan);
    }
}

/// Checks a host and the libraries of its units, and prepares their linked file, which
/// `Linked::write` writes. Nothing is written yet.
///
/// `host` and each of `libs` are whole code files; of the libraries that have a unit, the first is
/// used. Refuses `Refused` with the first fault of all, and `Memory` where memory was refused,
/// which is requested only once the files were read and have no fault.
pub fn prepare<'a, A: Allocator + Copy>(
    alloc: A,
    host: &'a [u8],
    libs: &'a [&'a [u8]],
) -> Result<Linked<'a, A>, LinkError>
    ensures linked { IfOk result (StandsFor host.now (contents libs.now)) }
    ensures map { IfOk result (λ linked. map_in linked ≡ map_of host.now (contents libs.now)) }
    ensures json { IfOk result (λ linked. map_json_in linked
        ≡ map_json_of host.now (contents libs.now)) }
    ensures plan { IfOk result (IsPlan host.now (contents libs.now)) }
    ensures accepted { IfOk result (λ _. NoneStands host.now (contents libs.now)) }
    ensures error { IfErr result (IsUnprepared host.now (contents libs.now)) }
    ensures first { IfErr result (NamesFirst host.now (contents libs.now)) }
    ensures used { IfErr result HasUsedNumber }
{
    match prepare_files(alloc, host, libs) {
        Err(stop) => Err(LinkError::from(stop)),
        Ok(linked) => Ok(linked),
    }
}

/// Checks a host and the libraries of its units, and prepares their linked file as [`prepare`] does,
/// for who writes nothing yet: the error has no write that failed.
///
/// Refuses `Refused` with the first fault of all, and `Memory` where memory was refused, which is
/// requested only once the files were read and have no fault.
#[tactic(auto, using(crate::proofs::Maps::plan_json, crate::proofs::Maps::plan_text, crate::proofs::Prepared::names_first, crate::proofs::Prepared::ready, crate::proofs::Prepared::stands_for, crate::proofs::Prepared::used_number))]
pub fn prepare_files<'a, A: Allocator + Copy>(
    alloc: A,
    host: &'a [u8],
    libs: &'a [&'a [u8]],
) -> Result<Linked<'a, A>, Stop>
    ensures linked { IfOk result (StandsFor host.now (contents libs.now)) }
    ensures map { IfOk result (λ linked. map_in linked ≡ map_of host.now (contents libs.now)) }
    ensures json { IfOk result (λ linked. map_json_in linked
        ≡ map_json_of host.now (contents libs.now)) }
    ensures plan { IfOk result (IsPlan host.now (contents libs.now)) }
    ensures accepted { IfOk result (λ _. NoneStands host.now (contents libs.now)) }
    ensures stop { IfErr result (IsStopped host.now (contents libs.now)) }
    ensures first { IfErr result (λ stop. NamesFirst host.now (contents libs.now)
        (error_of stop)) }
    ensures used { IfErr result (λ stop. HasUsedNumber (error_of stop)) }
{
    first_of_all();
    match resolve(alloc, host, libs) {
        Err(stop) => Err(stop),
        Ok(plan) => {
            bytes_are_linked();
            slot_names_are_whole();
            Ok(Linked { plan })
        }
    }
}

/// Checks a host and the libraries of its units that were read, and prepares their linked file as
/// [`prepare_files`] does. It reads them no second time, and nothing is written yet.
///
/// Refuses `Refused` with the first fault of all, and `Memory` where memory was refused, which is
/// requested only where the files have no fault in reading.
#[tactic(auto, using(crate::proofs::Maps::plan_json, crate::proofs::Maps::plan_text, crate::proofs::Prepared::names_first, crate::proofs::Prepared::ready, crate::proofs::Prepared::stands_for, crate::proofs::Prepared::used_number))]
pub fn prepare_reading<'a, A: Allocator + Copy>(
    alloc: A,
    reading: &Reading<'a>,
) -> Result<Linked<'a, A>, Stop>
    ensures linked { IfOk result (StandsFor reading.now.host reading.now.libs) }
    ensures map { IfOk result (λ linked. map_in linked
        ≡ map_of reading.now.host reading.now.libs) }
    ensures json { IfOk result (λ linked. map_json_in linked
        ≡ map_json_of reading.now.host reading.now.libs) }
    ensures plan { IfOk result (IsPlan reading.now.host reading.now.libs) }
    ensures accepted { IfOk result (λ _. NoneStands reading.now.host reading.now.libs) }
    ensures stop { IfErr result (IsStopped reading.now.host reading.now.libs) }
    ensures first { IfErr result (λ stop. NamesFirst reading.now.host reading.now.libs
        (error_of stop)) }
    ensures used { IfErr result (λ stop. HasUsedNumber (error_of stop)) }
{
    first_of_all();
    match resolve_reading(alloc, reading) {
        Err(stop) => Err(stop),
        Ok(plan) => {
            bytes_are_linked();
            slot_names_are_whole();
            Ok(Linked { plan })
        }
    }
}

/// Links a host with the units that it uses, and writes the linked file.
///
/// Where `link` answers Ok, the bytes written are exactly one code file: every segment is its
/// input's code, byte for byte, except that each reference holds its definition's value added to
/// its displacement, each linked segment its slot's number, and the host's outer block a data size
/// grown by the private words; every kind is LINKED and no link information is left.
///
/// `host` and each of `libs` are whole code files; of the libraries that have a unit, the first is
/// used. Refuses `Refused` with the first fault of all, and `Memory` where memory was refused,
/// which is requested only once the files were read and have no fault; nothing was written then.
/// Refuses `Write` where the writer failed, which then has a prefix of the linked file.
/// Source: UCSD Pascal II.0 manual, code file format; the published II.0 Linker source; the layout
/// is this project's profile.
#[tactic(auto, using(crate::proofs::Whole::none_found))]
pub fn link<'a, A: Allocator + Copy, W: Write>(
    alloc: A,
    host: &'a [u8],
    libs: &'a [&'a [u8]],
    out: &mut W,
) -> Result<Summary, LinkError>
    ensures written { OnOk result (AppendsLinkedFile host.now (contents libs.now)
        (W.contents out.old) (W.contents out.new)) }
    ensures summary { IfOk result (λ s. s ≡ summary_of host.now (contents libs.now)) }
    ensures accepted { IfOk result (λ _. NoneStands host.now (contents libs.now)) }
    ensures error { IfErr result (IsUnlinked host.now (contents libs.now)) }
    ensures first { IfErr result (NamesFirst host.now (contents libs.now)) }
    ensures used { IfErr result HasUsedNumber }
    ensures untouched { IfErr result (λ e. LeavesUntouched e out.old out.new) }
    ensures prefix { IfErr result (λ e. LeavesPrefix host.now (contents libs.now) e
        (W.contents out.old) (W.contents out.new)) }
{
    first_of_all();
    match prepare(alloc, host, libs) {
        Ok(linked) => written(&linked, out),
        Err(error) => Err(error),
    }
}

/// Writes a linked file that was prepared: it is refused only where a write failed.
#[tactic(auto, using(std::proofs::lemmas::Result::err_from_is_err_and))]
fn written<A: Allocator + Copy, W: Write>(
    linked: &Linked<'_, A>,
    out: &mut W,
) -> Result<Summary, LinkError>
    ensures file { OnOk result (Appends (W.contents out.old) (W.contents out.new)
        (file_in linked.now)) }
    ensures summary { IfOk result (λ s. s ≡ summary_in linked.now) }
    ensures error { IfErr result (λ e. (fault : WriteFault) × (e ≡ WriteFailed fault)) }
    ensures prefix { OnErr result (AppendsPrefix (W.contents out.old) (W.contents out.new)
        (file_in linked.now)) }
{
    Ok(linked.write(out)?)
}
