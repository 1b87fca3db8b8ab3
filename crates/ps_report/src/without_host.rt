//! The lists of files of which none has a host program.
ghost use Rattle.std.specs.Prelude.{◌≡◌, ◌∷◌, [], IfOk, false, string_bytes, true};
ghost use Rattle.ps_resolve.specs.Sources.{contents};
ghost use Rattle.ps_check_segments.specs.Paths.{paths_in};
ghost use Rattle.ps_listing.specs.FileLists.{IsList};
ghost use Rattle.ps_listing.specs.declared.lists.ListForm.TheVariants.{Lines};
ghost use Rattle.ps_report.specs.Lists.{is_no_host as is_no_host_spec, is_no_host_reason as is_no_host_reason_spec, lacks_host as lacks_host_spec};

use crate::kept::string_of;
use crate::verdict::Verdict;
use ps_check_segments::NamedFiles;
use ps_listing::{ListForm, Lists, has_host_among};
use ps_words::Reason;
use std::alloc::{AllocError, Allocator};

/// The reason says why the first file is no host.
fn is_no_host_reason(reason: Reason) -> bool
    ensures { result ≡ is_no_host_reason_spec reason }
{
    match reason {
        Reason::NoHost => true,
        _ => false,
    }
}

/// The files are refused because the first is no host.
fn is_no_host(verdict: Verdict) -> bool
    ensures { result ≡ is_no_host_spec verdict }
{
    match verdict {
        Verdict::Links(_) => false,
        Verdict::Refused(fault) => is_no_host_reason(fault.reason),
    }
}

/// Neither the first file nor a library has a host program.
fn lacks_host(verdict: Verdict, libs: &[&[u8]]) -> bool
    ensures { result ≡ lacks_host_spec verdict (contents libs.now) }
{
    is_no_host(verdict) && !has_host_among(libs)
}

/// The list of each file, one after another, where none of them has a host program; else no line.
pub(crate) fn lists_without_host<'a, A: Allocator + Copy>(
    alloc: A,
    verdict: Verdict,
    files: &NamedFiles<'a>,
) -> Result<String<A>, AllocError>
    ensures lists { IfOk result (λ lists.
        lacks_host_spec verdict (contents files.now.libs.now) ≡ true
        → IsList Lines (paths_in files.now) (files.now.host.now ∷ contents files.now.libs.now)
        (string_bytes lists)) }
    ensures none { IfOk result (λ lists.
        lacks_host_spec verdict (contents files.now.libs.now) ≡ false
        → string_bytes lists ≡ []) }
{
    if !lacks_host(verdict, files.libs) {
        return Ok(String::new(alloc));
    }
    let lists = Lists::of(
        alloc,
        ListForm::Lines,
        files.host_path,
        files.paths,
        files.host,
        files.libs,
    )?;
    string_of(alloc, &lists)
}
