//! What a link writes: OUT, then its map, and the summary that it prints.
ghost use Rattle.std.specs.Prelude.{◌≡◌, ◌≢◌, ◌⊎◌, List, ℕ, IfErr, IfOk, IfSome, OnErr, OnOk, Some, false, option_map, true};
ghost use Rattle.std.specs.Borrow.{Bor};
ghost use Rattle.ps_linkfile.specs.LinkedFile.{summary_of};
ghost use Rattle.ps_linkfile.specs.Writing.{file_in, summary_in};
ghost use Rattle.ps_output_files.specs.Links.{AddsBefore, AddsBeforePrepared, AddsPrepared, IsPlaceOf, IsWhyUnlinked, MapIsApart, PrintsPlaced, WritesLink, map_path};
ghost use Rattle.ps_output_files.specs.Log.{Grows, IsClosed, TakesMap, took};
ghost use Rattle.ps_output_files.specs.Places.{IsBeside, IsPlace, PrintsAt};
ghost use Rattle.ps_output_files.specs.Prepared.{map_bytes, plan_of};
ghost use Rattle.ps_output_files.specs.SummaryLine.{summary_text};
ghost use Rattle.ps_output_files.specs.Unwritten.{FailsAt, FailsBeside};
ghost use Rattle.ps_resolve.specs.Sources.{contents};
ghost use Rattle.ps_writing.specs.Prefixes.{AppendsPrefix};

use crate::code_files::CodeFiles;
use crate::prepared::{Prepared, prepare_link};
use crate::summary::add_summary;
use crate::unlinked::Unlinked;
use ps_arguments::{LinkOptions, OutBy, Outputs, Telling};
use ps_linkfile::Linked;
use ps_writing::{Counting, Form, WriteFault, write_all_of};
use std::alloc::Allocator;
use std::io::Write;

/// Room for the summary that a link prints.
const SUMMARY_LENGTH: usize = 128;

/// Where the summary of a link is printed.
#[derive(Clone, Copy)]
pub enum Place {
    Nowhere,
    /// On standard output.
    Output,
    /// On standard error, since the linked file or its map goes to standard output.
    Error,
}

/// Links a host and libraries: writes the linked file to OUT, then its map, and prints the summary. No
/// file is created before all is checked. The summary's text is made before OUT is opened, and is
/// printed once all is written.
pub fn link_files<'a, 'f, R: CodeFiles, A: Allocator + Copy, O: Write, E: Write>(
    rt: &mut R,
    alloc: A,
    host: &'f [u8],
    libs: &'f [&'f [u8]],
    asked: &Outputs<'a>,
    out: &mut O,
    err: &mut E,
) -> Result<(), Unlinked<'a>>
    // OUT took the linked file, and nothing else, then the file of the map took the map of the same
    // files, and no other file was created.
    ensures written { IfOk result (λ _. WritesLink R.world asked.now host.now (contents libs.now)
        rt.old rt.new) }

    // Where it is not linked, no file was created; but of files that link a part was written where the
    // file at the path that is named was not written whole, and all where standard output failed.
    ensures left { IfErr result (AddsBefore asked.now host.now (contents libs.now)
        (R.world rt.old) (R.world rt.new)) }

    // The summary is printed at its place, and nothing else.
    ensures printed { OnOk result (PrintsPlaced (R.world rt.old) asked.now
        (summary_of host.now (contents libs.now)) (O.contents out.old) (O.contents out.new)
        (E.contents err.old) (E.contents err.new)) }
    ensures silent { IfOk result (λ _. (err.new ≡ err.old)
        ⊎ IsPlaceOf (R.world rt.old) asked.now Place.Error) }

    // Where it is not linked, standard error is as it was, and standard output too unless it failed
    // itself.
    ensures untold { IfErr result (λ _. err.new ≡ err.old) }
    ensures err { IfErr result (λ e. e ≢ Unlinked.StandardOutput → out.new ≡ out.old) }
    ensures why { IfErr result (IsWhyUnlinked host.now (contents libs.now)) }
    // Where standard output failed, it was to take the summary, and has a prefix of it.
    ensures placed { IfErr result (λ e. e ≡ Unlinked.StandardOutput
        → IsPlaceOf (R.world rt.old) asked.now Place.Output) }
    ensures prefix { IfErr result (λ e. e ≡ Unlinked.StandardOutput
        → AppendsPrefix (O.contents out.old) (O.contents out.new)
        (summary_text asked.now.options.form (summary_of host.now (contents libs.now)))) }
{
    match prepare_link(alloc, asked.options.content, host, libs) {
        Ok(prepared) => link_prepared(rt, alloc, &prepared, asked, out, err),
        Err(stop) => Err(Unlinked::from(stop)),
    }
}

/// Writes the linked file and its map, and prints the summary, whose text is made before OUT is
/// opened.
fn link_prepared<'a, R: CodeFiles, A: Allocator + Copy, O: Write, E: Write>(
    rt: &mut R,
    alloc: A,
    prepared: &Prepared<'_, A>,
    asked: &Outputs<'a>,
    out: &mut O,
    err: &mut E,
) -> Result<(), Unlinked<'a>>
    ensures written { IfOk result (λ _. AddsPrepared asked.now prepared.now (R.world rt.old)
        (R.world rt.new)) }
    ensures apart { IfOk result (λ _. MapIsApart R.world (map_path asked.now) asked.now.out.now
        (file_in (plan_of prepared.now)) rt.old) }
    ensures left { IfErr result (AddsBeforePrepared asked.now prepared.now (R.world rt.old)
        (R.world rt.new)) }
    ensures printed { OnOk result (PrintsPlaced (R.world rt.old) asked.now
        (summary_in (plan_of prepared.now)) (O.contents out.old) (O.contents out.new)
        (E.contents err.old) (E.contents err.new)) }
    ensures silent { IfOk result (λ _. (err.new ≡ err.old)
        ⊎ IsPlaceOf (R.world rt.old) asked.now Place.Error) }
    ensures untold { IfErr result (λ _. err.new ≡ err.old) }
    ensures err { IfErr result (λ e. e ≢ Unlinked.StandardOutput → out.new ≡ out.old) }
    ensures placed { IfErr result (λ e. e ≡ Unlinked.StandardOutput
        → IsPlaceOf (R.world rt.old) asked.now Place.Output) }
    ensures prefix { IfErr result (λ e. e ≡ Unlinked.StandardOutput
        → AppendsPrefix (O.contents out.old) (O.contents out.new)
        (summary_text asked.now.options.form (summary_in (plan_of prepared.now)))) }
{
    let mut text = String::with_capacity(alloc, SUMMARY_LENGTH)?;
    add_summary(&mut text, asked.options.form, prepared.linked().summary())?;
    let place = place_of(&*rt, asked.options, asked.out, asked.map);
    write_linked(rt, prepared.linked(), asked.out)?;
    write_map(rt, prepared, asked.options.form, asked.map, asked.out)?;
    Ok(print_at(place, text.as_bytes(), out, err)?)
}

/// Where the summary of a link with these options is printed, if it is, whose map goes to this file,
/// if there is one.
fn place_of<R: CodeFiles>(rt: &R, options: LinkOptions, out: &str, map: Option<&str>) -> Place
    ensures { IsPlace (R.world rt.now).leads options out.now
        (option_map (λ path. path.now) map.entry) result }
{
    match options.telling {
        Telling::Nothing => Place::Nowhere,
        Telling::Summary => place_of_summary(rt, options, out, map),
    }
}

/// Where a summary is printed that is not left out.
fn place_of_summary<R: CodeFiles>(
    rt: &R,
    options: LinkOptions,
    out: &str,
    map: Option<&str>,
) -> Place
    ensures { options.telling ≡ Telling.Summary → IsPlace (R.world rt.now).leads options out.now
        (option_map (λ path. path.now) map.entry) result }
{
    if leads_by_option(rt, options.named, out) {
        return Place::Error;
    }
    place_beside(rt, map)
}

/// The option names OUT, and OUT leads to standard output.
#[inline(never)]
fn leads_by_option<R: CodeFiles>(rt: &R, named: OutBy, out: &str) -> bool
    ensures leads { result ≡ true
        → (named ≡ OutBy.Option) × (R.world rt.now).leads out.now true }
    ensures apart { result ≡ false → named ≡ OutBy.Option
        → (R.world rt.now).leads out.now false }
{
    match named {
        OutBy::Option => rt.leads_to_output(out),
        OutBy::Place => false,
    }
}

/// Where a summary is printed whose map goes to this file, if there is one.
#[inline(never)]
fn place_beside<R: CodeFiles>(rt: &R, map: Option<&str>) -> Place
    ensures { IsBeside (R.world rt.now).leads (option_map (λ path. path.now) map.entry) result }
{
    match map {
        None => Place::Output,
        Some(file) => {
            if rt.leads_to_output(file) {
                Place::Error
            } else {
                Place::Output
            }
        }
    }
}

/// Prints a summary at its place. If standard error does not take it, that is ignored.
fn print_at<O: Write, E: Write>(
    place: Place,
    text: &[u8],
    out: &mut O,
    err: &mut E,
) -> Result<(), WriteFault>
    ensures printed { OnOk result (PrintsAt place text.now (O.contents out.old)
        (O.contents out.new) (E.contents err.old) (E.contents err.new)) }
    ensures silent { place ≢ Place.Error → err.new ≡ err.old }
    ensures untold { OnErr result (err.new ≡ err.old) }
    ensures placed { OnErr result (place ≡ Place.Output) }
    ensures prefix { OnErr result (AppendsPrefix (O.contents out.old) (O.contents out.new)
        text.now) }
{
    match place {
        Place::Nowhere => Ok(()),
        Place::Output => write_all_of(out, text),
        Place::Error => {
            let _ = write_all_of(err, text);
            Ok(())
        }
    }
}

/// Creates or empties the file at `path`, writes the linked file to it, and closes it.
fn write_linked<'a, R: CodeFiles, A: Allocator + Copy>(
    rt: &mut R,
    linked: &Linked<'_, A>,
    path: &'a str,
) -> Result<(), Unlinked<'a>>
    ensures file { IfOk result (λ _. Grows (R.world rt.old).log (R.world rt.new).log
        (took path.entry.now (file_in linked.now))) }
    ensures part { IfErr result (λ _. FailsAt (R.world rt.old) (R.world rt.new) path.entry.now
        (file_in linked.now)) }
    ensures err { IfErr result (λ e. e ≡ Unlinked.Write path.entry) }
{
    let Ok(file) = rt.create(path) else {
        return Err(Unlinked::Write { path });
    };
    let mut told = Counting::new(file);
    let written = linked.write_told(&mut told);
    close_written(rt, path, told.into_inner(), written.is_ok())
}

/// Writes the map of a link to the file at this path, if there is one, once the linked file is whole
/// at `out`.
fn write_map<'a, R: CodeFiles, A: Allocator + Copy>(
    rt: &mut R,
    prepared: &Prepared<'_, A>,
    form: Form,
    path: Option<&'a str>,
    out: &str,
) -> Result<(), Unlinked<'a>>
    ensures file { IfOk result (λ _. TakesMap (R.world rt.old).log (R.world rt.new).log
        (option_map (λ path. path.now) path.entry) (map_bytes form prepared.now)) }
    ensures apart { IfOk result (λ _. IfSome (option_map (λ path. path.now) path.entry)
        (λ path. (R.world rt.old).one_file path out.now false)) }
    ensures part { IfErr result (λ e. (file : Bor (List ℕ)) × (path.entry ≡ Some file)
        × (e ≡ Unlinked.Write file) × FailsBeside (R.world rt.old) (R.world rt.new) file.now out.now
        (map_bytes form prepared.now)) }
{
    match path {
        Some(path) => write_map_to(rt, prepared, form, path, out),
        None => Ok(()),
    }
}

/// Creates or empties the file at `path`, writes the map of a link to it in this form, and closes it.
/// The linked file is whole at `out`, and stays so: where the path leads there too, no map is written.
#[inline(never)]
fn write_map_to<'a, R: CodeFiles, A: Allocator + Copy>(
    rt: &mut R,
    prepared: &Prepared<'_, A>,
    form: Form,
    path: &'a str,
    out: &str,
) -> Result<(), Unlinked<'a>>
    ensures file { IfOk result (λ _. Grows (R.world rt.old).log (R.world rt.new).log
        (took path.entry.now (map_bytes form prepared.now))) }
    ensures apart { IfOk result (λ _. (R.world rt.old).one_file path.entry.now out.now false) }
    ensures part { IfErr result (λ _. FailsBeside (R.world rt.old) (R.world rt.new)
        path.entry.now out.now (map_bytes form prepared.now)) }
    ensures err { IfErr result (λ e. e ≡ Unlinked.Write path.entry) }
{
    if rt.lead_to_one_file(path, out) {
        return Err(Unlinked::Write { path });
    }
    let Ok(file) = rt.create(path) else {
        return Err(Unlinked::Write { path });
    };
    let mut file = file;
    let written = prepared.write_map(form, &mut file);
    close_written(rt, path, file, written.is_ok())
}

/// Closes the file that was created at `path`, to which all was `written` or not.
fn close_written<'a, R: CodeFiles>(
    rt: &mut R,
    path: &'a str,
    file: R::Created,
    written: bool,
) -> Result<(), Unlinked<'a>>
    ensures closed { IsClosed (R.world rt.old).log (R.world rt.new).log path.entry.now
        (R.Created.contents file) }
    ensures whole { IfOk result (λ _. written ≡ true) }
    ensures err { IfErr result (λ e. e ≡ Unlinked.Write path.entry) }
{
    match rt.close(path, file) {
        Ok(()) if written => Ok(()),
        _ => Err(Unlinked::Write { path }),
    }
}
