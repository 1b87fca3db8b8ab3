//! A link: its files are read and checked, OUT is written, then its map, and the summary is printed.
ghost use Rattle.std.specs.Prelude.{◌≡◌, ◌≢◌, ◌⊎◌, List, IfErr, IfOk, map};
ghost use Rattle.ps_arguments.specs.CommandLine.{Row};
ghost use Rattle.ps_arguments.specs.Requests.{NamesLink};
ghost use Rattle.ps_command.specs.Causes.{told_of};
ghost use Rattle.ps_command.specs.Failures.{FailsToLink};
ghost use Rattle.ps_command.specs.Links.{FailsLink, IsLinked, LeavesPart, is_document as is_document_spec};
ghost use Rattle.ps_command.specs.Printed.{LinkLeavesPart, LinksOrRefuses};
ghost use Rattle.ps_command.specs.Statuses.{ended_status, status_of};
ghost use Rattle.ps_output_files.specs.Links.{IsPlaceOf};
ghost use Rattle.ps_output_files.specs.declared.linking.Place.TheVariants as place;
ghost use Rattle.ps_texts.specs.Paths.{paths_in};
ghost use Rattle.ps_texts.specs.Sources.{contents};

use crate::ended::Ended;
use crate::error::RunError;
use crate::files;
use crate::refusal::refuse;
use ps_arguments::Link;
use ps_output_files::{CodeFiles, Unlinked, link_files};
use ps_texts::{Form, NamedFiles, Refusal};
use std::alloc::{AllocError, Allocator};
use std::io::Write;

/// Reads the files and links them. Returns how it ends.
pub(crate) fn link<'a, R: CodeFiles, A: Allocator + Copy, O: Write, E: Write>(
    rt: &mut R,
    alloc: A,
    asked: Link<'a, A>,
    out: &mut O,
    err: &mut E,
) -> Result<Ended, RunError<'a>>
    ensures ok { (rows : List Row) → NamesLink (R.world rt.old).one_file asked.entry rows
        → IfOk result (λ ended. LinksOrRefuses R.world rows asked.entry.inputs.host.now
        (ended_status ended) rt.old rt.new (out.new ≡ out.old) (O.contents out.old)
        (O.contents out.new) (E.contents err.old) (E.contents err.new)) }
    ensures part { (rows : List Row) → NamesLink (R.world rt.old).one_file asked.entry rows
        → IfErr result (λ _. ((R.world rt.new).log ≡ (R.world rt.old).log)
        ⊎ LinkLeavesPart R.world rows asked.entry.inputs.host.now rt.old rt.new) }
    ensures refused { IfOk result (λ ended. ended_status ended ≢ 0
        → (R.world rt.new).log ≡ (R.world rt.old).log) }
    ensures memory { IfErr result (λ e. status_of (told_of e) ≢ 3
        → (R.world rt.new).log ≡ (R.world rt.old).log) }
    ensures silent { IfOk result (λ ended. ended_status ended ≡ 0 → (err.new ≡ err.old)
        ⊎ IsPlaceOf (R.world rt.old) asked.entry.outputs place.Error) }
    ensures err { IfErr result (λ e. e ≢ RunError.StandardOutput → out.new ≡ out.old) }
    ensures failed { (rows : List Row) → NamesLink (R.world rt.old).one_file asked.entry rows
        → IfErr result (λ e. status_of (told_of e) ≡ 3 → FailsToLink R.world rows
        asked.entry.inputs.host.now rt.old rt.new (O.contents out.old) (O.contents out.new)) }
{
    let bytes = files::read_inputs(&*rt, alloc, &asked.inputs)?;
    let views = views(alloc, bytes.libraries.as_slice())?;
    let files = NamedFiles {
        host_path: asked.inputs.host,
        paths: asked.inputs.libraries.as_slice(),
        host: bytes.host.as_slice(),
        libs: views.as_slice(),
    };
    link_read(rt, alloc, &files, &asked, out, err)
}

/// Links files that were read, and returns how it ends: files that are refused are reported here.
fn link_read<'a, R: CodeFiles, A: Allocator + Copy, O: Write, E: Write>(
    rt: &mut R,
    alloc: A,
    files: &NamedFiles<'_>,
    asked: &Link<'a, A>,
    out: &mut O,
    err: &mut E,
) -> Result<Ended, RunError<'a>>
    ensures ok { IfOk result (λ ended. IsLinked R.world asked.now (paths_in files.now)
        files.now.host.now (contents files.now.libs.now) ended rt.old rt.new (out.new ≡ out.old)
        (O.contents out.old) (O.contents out.new) (E.contents err.old) (E.contents err.new)) }
    ensures part { IfErr result (λ _. ((R.world rt.new).log ≡ (R.world rt.old).log)
        ⊎ LeavesPart asked.now files.now.host.now (contents files.now.libs.now)
        (R.world rt.old).log (R.world rt.new).log) }
    ensures refused { IfOk result (λ ended. ended ≢ Ended.Done
        → (R.world rt.new).log ≡ (R.world rt.old).log) }
    ensures memory { IfErr result (λ e. status_of (told_of e) ≢ 3
        → (R.world rt.new).log ≡ (R.world rt.old).log) }
    ensures silent { IfOk result (λ ended. ended ≡ Ended.Done → (err.new ≡ err.old)
        ⊎ IsPlaceOf (R.world rt.old) asked.now.outputs place.Error) }
    ensures err { IfErr result (λ e. e ≢ RunError.StandardOutput → out.new ≡ out.old) }
    ensures failed { IfErr result (λ e. status_of (told_of e) ≡ 3 → FailsLink R.world asked.now
        (paths_in files.now) files.now.host.now (contents files.now.libs.now) rt.old rt.new
        (O.contents out.old) (O.contents out.new)) }
{
    match link_files(rt, alloc, files.host, files.libs, &asked.outputs, out, err) {
        Ok(()) => Ok(Ended::Done),
        Err(Unlinked::Refused(fault)) => {
            let refusal = Refusal::of(files.host, files.libs, fault);
            let is_json = is_document(asked.outputs.options.form);
            Ok(refuse(files, Some(asked.outputs.out), refusal, is_json, out, err)?)
        }
        Err(Unlinked::Memory) => Err(RunError::Memory),
        Err(Unlinked::Write { path }) => Err(RunError::Write { path }),
        Err(Unlinked::StandardOutput) => Err(RunError::StandardOutput),
    }
}

/// A document is asked for, and not lines.
fn is_document(form: Form) -> bool
    ensures { result ≡ is_document_spec form }
{
    matches!(form, Form::Json)
}

/// What each file has, in their order.
// If an allocation of `collect` is refused, it may be requested again and then succeed.
pub(crate) fn views<'c, A: Allocator + Copy>(
    alloc: A,
    contents: &'c [Vec<u8, A>],
) -> Result<Vec<&'c [u8], A>, AllocError>
    ensures { IfOk result (λ views. map (λ view. view.now) views.items
        ≡ map (λ content. content.items) contents.now) }
{
    let mut views = Vec::new(alloc);
    for content in contents {
        views.push(content.as_slice())?;
    }
    Ok(views)
}
