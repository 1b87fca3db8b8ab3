//! The texts of files, as values.
ghost use Rattle.std.specs.Prelude.{◌≡◌, IfErr, IfOk, List, Ok, ℕ};
ghost use Rattle.ps_words.specs.FaultPlaces.{in_file};
ghost use Rattle.ps_filetype.specs.CodeTypes.{is_code_type as is_code_type_spec};
ghost use Rattle.ps_resolve.specs.Sources.{contents};
ghost use Rattle.ps_linkfile.specs.Refusals.{refusal_of};
ghost use Rattle.ps_linkfile.specs.declared.unmade.Unmade.TheVariants.{Refused};
ghost use Rattle.ps_check_segments.specs.Paths.{paths_in};
ghost use Rattle.ps_report.specs.Reported.{reported};
ghost use Rattle.ps_writing.specs.Adding.{Adds};
ghost use Rattle.ps_texts.specs.CodeTypes.{code_type, type_line};
ghost use Rattle.ps_texts.specs.Texts.{IsMadeOf, bytes_in, report_bytes};
ghost use Rattle.ps_texts.specs.UnitNames.{HasNames, bytes_of, had_in, wanted_in as wanted_in_spec};
ghost use Rattle.ps_texts.specs.Unmade.{WhyUnmade};
ghost use Rattle.ps_texts.specs.declared.kinds.HostText.TheVariants.{CodeType as TypeOf, Had, Show as ShowOf};
ghost use Rattle.ps_texts.specs.declared.kinds.LinkText.TheVariants.{Map as MapOf, References as ReferencesOf};
ghost use Rattle.ps_texts.specs.declared.kinds.NamedText.TheVariants.{List as Listed, OfReport};
ghost use Rattle.ps_texts.specs.declared.kinds.TextKind.TheVariants.{Named, OfHost, OfLink, Wanted};

use crate::code_type::{CodeType, add_type_line, code_type_of};
use crate::kinds::{HostText, LinkText, NamedText, ReportText, TextKind};
use crate::units::{units_had, units_wanted};
use ps_check_segments::NamedFiles;
use ps_codefile::{Dict, open};
use ps_filetype::is_code_type;
use ps_linkfile::{
    LinkMap, Linked, ReferenceMap, References, Refusal, Show, ShownFile, Unmade, prepare_files,
    prepare_references,
};
use ps_listing::{ListForm, Lists};
use ps_report::{PrintedFindings, PrintedReport, Report, check};
use ps_resolve::{HostReading, Reading, read};
use ps_words::{Fault, Name, Reason};
use ps_writing::{Form, Text, TextWriter, add_each};
use std::alloc::{AllocError, Allocator, Global};

/// A text of files. It has views of them, and no copy. What is large of it is in memory, so that it takes
/// little of the stack where it is handed on.
#[derive(Drop)]
pub enum FilesText<'a, A: Allocator + Copy = Global> {
    /// The map of a link.
    Map(Form, Box<Linked<'a, A>, A>),
    /// The map of a link, and each place at which it stores bytes.
    References(Form, Box<ReferenceMap<'a, A>, A>),
    /// What a file has.
    Show(Form, ShownFile<'a>),
    /// What is printed of a report.
    Report(ReportText, Form, Report<'a, A>),
    /// The list of each file.
    Lists(Lists<'a, A>),
    /// Names of units.
    Names(Vec<Name, A>),
    /// What a file is for, and its byte order, where it is a code file as it ought to be.
    CodeType(Option<CodeType>),
}

impl<A: Allocator + Copy> Text for FilesText<'_, A> {
    ghost bytes = { λ t. bytes_in t };

    fn add_to<S: TextWriter>(&self, text: &mut S) {
        match self {
            FilesText::Map(form, linked) => LinkMap {
                form: *form,
                linked: &**linked,
            }
            .add_to(text),
            FilesText::References(form, map) => References {
                form: *form,
                map: &**map,
            }
            .add_to(text),
            FilesText::Show(form, file) => Show { form: *form, file }.add_to(text),
            FilesText::Report(what, form, report) => PrintedOfReport {
                what: *what,
                form: *form,
                report,
            }
            .add_to(text),
            FilesText::Lists(lists) => lists.add_to(text),
            FilesText::Names(names) => add_names(text, names.as_slice()),
            FilesText::CodeType(found) => add_type_line(text, *found),
        }
    }
}

/// What is printed of a report, in one of its forms.
#[derive(Drop)]
pub struct PrintedOfReport<'r, 'a, A: Allocator> {
    pub what: ReportText,
    pub form: Form,
    pub report: &'r Report<'a, A>,
}

impl<A: Allocator> Text for PrintedOfReport<'_, '_, A> {
    ghost bytes = { λ p. report_bytes p.what p.form (reported p.report.now) };

    fn add_to<S: TextWriter>(&self, text: &mut S) {
        let (form, report) = (self.form, self.report);
        match self.what {
            ReportText::Whole => PrintedReport { form, report }.add_to(text),
            ReportText::Findings => PrintedFindings { form, report }.add_to(text),
        }
    }
}

/// Adds names, eight bytes each, one after another.
fn add_names<S: TextWriter>(text: &mut S, names: &[Name])
    ensures { Adds S.added text.old (bytes_of names.now) text.new }
{
    add_each(text, names, |text, name| text.add(name));
}

impl<A: Allocator + Copy> FilesText<'_, A> {
    ghost use Rattle.std.specs.Prelude.{◌≡◌, ◌≤◌};
    ghost use Rattle.ps_texts.specs.Texts.{status_in};

    /// What a process that prints it ends with: 1 where it is the report of files that are refused or, if
    /// it is `strict`, that has a warning; else 0.
    pub fn status(&self, strict: bool) -> u8
        ensures status { result ≡ status_in strict self.now }
        ensures few { result ≤ 1 }
    {
        match self {
            FilesText::Report(ReportText::Whole, _, report) => report.status(strict),
            _ => 0,
        }
    }
}

/// A value in memory.
fn boxed<T: Drop, A: Allocator + Copy>(alloc: A, value: T) -> Result<Box<T, A>, AllocError>
    ensures { IfOk result (λ kept. kept.value ≡ value) }
{
    Ok(Box::new(alloc, value)?)
}

/// The map of a link.
#[inline(never)]
#[tactic(auto, using(crate::proofs::Forms::none_in_reading))]
fn map_of<'a, A: Allocator + Copy>(
    alloc: A,
    form: Form,
    files: &NamedFiles<'a>,
) -> Result<FilesText<'a, A>, Unmade>
    ensures made { IfOk result (IsMadeOf (OfLink MapOf form) (paths_in files.now) files.now.host.now
        (contents files.now.libs.now)) }
    ensures unmade { IfErr result (WhyUnmade (OfLink MapOf form) files.now.host.now
        (contents files.now.libs.now)) }
{
    match prepare_files(alloc, files.host, files.libs) {
        Ok(linked) => Ok(FilesText::Map(form, boxed(alloc, linked)?)),
        Err(stop) => Err(Unmade::of(files.host, files.libs, stop)),
    }
}

/// The map of a link, and what it stores.
#[inline(never)]
#[tactic(auto, using(crate::proofs::Forms::none_in_reading))]
fn references_of<'a, A: Allocator + Copy>(
    alloc: A,
    form: Form,
    files: &NamedFiles<'a>,
) -> Result<FilesText<'a, A>, Unmade>
    ensures made { IfOk result (IsMadeOf (OfLink ReferencesOf form) (paths_in files.now)
        files.now.host.now (contents files.now.libs.now)) }
    ensures unmade { IfErr result (WhyUnmade (OfLink ReferencesOf form) files.now.host.now
        (contents files.now.libs.now)) }
{
    match prepare_references(alloc, files.host, files.libs) {
        Ok(map) => Ok(FilesText::References(form, boxed(alloc, map)?)),
        Err(stop) => Err(Unmade::of(files.host, files.libs, stop)),
    }
}

/// What the host's file has.
fn show_of<'a, A: Allocator + Copy>(
    form: Form,
    files: &NamedFiles<'a>,
) -> Result<FilesText<'a, A>, Unmade>
    ensures made { IfOk result (IsMadeOf (OfHost (ShowOf form)) (paths_in files.now) files.now.host.now
        (contents files.now.libs.now)) }
    ensures unmade { IfErr result (WhyUnmade (OfHost (ShowOf form)) files.now.host.now
        (contents files.now.libs.now)) }
{
    match ShownFile::read(files.host) {
        Ok(file) => Ok(FilesText::Show(form, file)),
        Err(fault) => Err(Unmade::Refused(Refusal::of(files.host, files.libs, fault))),
    }
}

/// What is printed of the report of a check.
#[inline(never)]
fn report_of<'a, A: Allocator + Copy>(
    alloc: A,
    what: ReportText,
    form: Form,
    files: &NamedFiles<'a>,
) -> Result<FilesText<'a, A>, AllocError>
    ensures { IfOk result (IsMadeOf (Named (OfReport what form)) (paths_in files.now)
        files.now.host.now (contents files.now.libs.now)) }
{
    let report = check(alloc, files)?;
    Ok(FilesText::Report(what, form, report))
}

#[inline(never)]
fn lists_of<'a, A: Allocator + Copy>(
    alloc: A,
    how: ListForm,
    files: &NamedFiles<'a>,
) -> Result<FilesText<'a, A>, AllocError>
    ensures { IfOk result (IsMadeOf (Named (Listed how)) (paths_in files.now) files.now.host.now
        (contents files.now.libs.now)) }
{
    let lists = Lists::of(
        alloc,
        how,
        files.host_path,
        files.paths,
        files.host,
        files.libs,
    )?;
    Ok(FilesText::Lists(lists))
}

/// The names of the units that a link with an opened host takes from libraries; none where the host's
/// list says that it is something else.
fn names_wanted<A: Allocator + Copy>(
    alloc: A,
    is_code: bool,
    host: &HostReading,
) -> Result<Vec<Name, A>, AllocError>
    ensures names { IfOk result (λ names. wanted_in_spec is_code (Ok host.now) ≡ Ok names.items) }
    ensures memory { IfErr result (λ _. HasNames (wanted_in_spec is_code (Ok host.now))) }
{
    if is_code {
        units_wanted(alloc, host)
    } else {
        Ok(Vec::new(alloc))
    }
}

/// The names of the units that files that were read want: none where the host has no kind but 0, as
/// a linked file. A function by itself, so that its caller has one reading and no copy of it.
#[inline(never)]
fn wanted_in<'a, A: Allocator + Copy>(
    alloc: A,
    is_code: bool,
    reading: &Reading<'_>,
) -> Result<FilesText<'a, A>, Unmade>
    requires { is_code ≡ is_code_type_spec reading.now.host }
    ensures made { (paths : List (List ℕ))
        → IfOk result (IsMadeOf Wanted paths reading.now.host reading.now.libs) }
    ensures unmade { IfErr result (WhyUnmade Wanted reading.now.host reading.now.libs) }
{
    match reading.host() {
        Ok(host) => Ok(FilesText::Names(names_wanted(alloc, is_code, host)?)),
        Err(Reason::NoHost) => Ok(FilesText::Names(Vec::new(alloc))),
        Err(reason) => Err(unopened(reading.file(), reading.libs(), reason)),
    }
}

/// The names of the units that a link wants from libraries.
#[inline(never)]
fn wanted_of<'a, A: Allocator + Copy>(
    alloc: A,
    files: &NamedFiles<'a>,
) -> Result<FilesText<'a, A>, Unmade>
    ensures made { IfOk result (IsMadeOf Wanted (paths_in files.now) files.now.host.now
        (contents files.now.libs.now)) }
    ensures unmade { IfErr result (WhyUnmade Wanted files.now.host.now
        (contents files.now.libs.now)) }
{
    let reading = read(files.host, files.libs);
    wanted_in(alloc, is_code_type(files.host), &reading)
}

/// The names of the units whose code an opened file has; none where its list says that it is
/// something else.
fn names_had<A: Allocator + Copy>(
    alloc: A,
    file: &[u8],
    dict: &Dict,
) -> Result<Vec<Name, A>, AllocError>
    ensures names { IfOk result (λ names. had_in (is_code_type_spec file.now) (Ok dict.now)
        ≡ Ok names.items) }
    ensures memory { IfErr result (λ _. HasNames (had_in (is_code_type_spec file.now)
        (Ok dict.now))) }
{
    if is_code_type(file) {
        units_had(alloc, dict)
    } else {
        Ok(Vec::new(alloc))
    }
}

/// The names of the units whose code the host's file has.
fn had_of<'a, A: Allocator + Copy>(
    alloc: A,
    files: &NamedFiles<'a>,
) -> Result<FilesText<'a, A>, Unmade>
    ensures made { IfOk result (IsMadeOf (OfHost Had) (paths_in files.now) files.now.host.now
        (contents files.now.libs.now)) }
    ensures unmade { IfErr result (WhyUnmade (OfHost Had) files.now.host.now
        (contents files.now.libs.now)) }
{
    match open(files.host) {
        Err(reason) => Err(unopened(files.host, files.libs, reason)),
        Ok(dict) => Ok(FilesText::Names(names_had(alloc, files.host, &dict)?)),
    }
}

/// Why nothing is made of a host's file that cannot be opened.
fn unopened(host: &[u8], libs: &[&[u8]], reason: Reason) -> Unmade
    ensures { result ≡ Refused (refusal_of host.now (contents libs.now) (in_file 0 reason)) }
{
    Unmade::Refused(Refusal::of(host, libs, Fault::in_file(0, reason)))
}

/// A text of the link of the files.
fn link_text<'a, A: Allocator + Copy>(
    alloc: A,
    what: LinkText,
    form: Form,
    files: &NamedFiles<'a>,
) -> Result<FilesText<'a, A>, Unmade>
    ensures made { IfOk result (IsMadeOf (OfLink what form) (paths_in files.now)
        files.now.host.now (contents files.now.libs.now)) }
    ensures unmade { IfErr result (WhyUnmade (OfLink what form) files.now.host.now
        (contents files.now.libs.now)) }
{
    match what {
        LinkText::Map => map_of(alloc, form, files),
        LinkText::References => references_of(alloc, form, files),
    }
}

/// A text of the host's file alone.
fn host_text<'a, A: Allocator + Copy>(
    alloc: A,
    what: HostText,
    files: &NamedFiles<'a>,
) -> Result<FilesText<'a, A>, Unmade>
    ensures made { IfOk result (IsMadeOf (OfHost what) (paths_in files.now) files.now.host.now
        (contents files.now.libs.now)) }
    ensures unmade { IfErr result (WhyUnmade (OfHost what) files.now.host.now
        (contents files.now.libs.now)) }
{
    match what {
        HostText::Show(form) => show_of(form, files),
        HostText::Had => had_of(alloc, files),
        HostText::CodeType => Ok(FilesText::CodeType(code_type_of(files.host))),
    }
}

/// A text in which the files have names: whatever they are, there is one.
fn named_text<'a, A: Allocator + Copy>(
    alloc: A,
    what: NamedText,
    files: &NamedFiles<'a>,
) -> Result<FilesText<'a, A>, AllocError>
    ensures { IfOk result (IsMadeOf (Named what) (paths_in files.now) files.now.host.now
        (contents files.now.libs.now)) }
{
    match what {
        NamedText::OfReport(what, form) => report_of(alloc, what, form, files),
        NamedText::List(how) => lists_of(alloc, how, files),
    }
}

/// The text of this kind of a host and its libraries.
///
/// The files are whole files, of any contents; of the libraries that have a unit, the first is used. A
/// report and a list have their paths. Refuses `Refused`, a map and its references with the first fault
/// of all, a show and names of units where the host's file cannot be read; nothing else is refused. And
/// `Memory` where memory was refused, which a map requests only once the files were read and have no
/// fault, names of units only where there is one, and a show and the type of a file never.
pub fn text_of<'a, A: Allocator + Copy>(
    alloc: A,
    kind: TextKind,
    files: &NamedFiles<'a>,
) -> Result<FilesText<'a, A>, Unmade>
    ensures made { IfOk result (IsMadeOf kind (paths_in files.now) files.now.host.now
        (contents files.now.libs.now)) }
    ensures unmade { IfErr result (WhyUnmade kind files.now.host.now
        (contents files.now.libs.now)) }
{
    match kind {
        TextKind::OfLink(what, form) => link_text(alloc, what, form, files),
        TextKind::OfHost(what) => host_text(alloc, what, files),
        TextKind::Wanted => wanted_of(alloc, files),
        TextKind::Named(what) => Ok(named_text(alloc, what, files)?),
    }
}
