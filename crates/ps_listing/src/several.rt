//! Whether one of several files has a host program.
ghost use Rattle.std.specs.Prelude.{◌≡◌};
ghost use Rattle.ps_resolve.specs.Sources.{contents};
ghost use Rattle.ps_listing.specs.FileLists.{has_host as has_host_spec, has_host_among as has_host_among_spec, has_host_as as has_host_as_spec, is_for_host as is_for_host_spec};

use ps_codefile::{Dict, open};
use ps_filetype::CodeFile;
use ps_words::Reason;

/// A file that is for this has a host program.
fn is_for_host(purpose: Option<CodeFile>) -> bool
    ensures { result ≡ is_for_host_spec purpose }
{
    matches!(purpose, Some(CodeFile::Host))
}

/// A file that was opened, or was not, has a host program.
fn has_host_as(opened: Result<Dict, Reason>) -> bool
    ensures { result ≡ has_host_as_spec opened.entry }
{
    match opened {
        Ok(dict) => is_for_host(CodeFile::of(&dict)),
        Err(_) => false,
    }
}

/// A file has a host program, as its list says.
#[tactic(auto, unfolding(crate::specs::FileLists::has_host))]
fn has_host(file: &[u8]) -> bool
    ensures { result ≡ has_host_spec file.now }
{
    has_host_as(open(file))
}

/// Some of these files has a host program: its list says that it is a host. A file that cannot be
/// opened has none.
pub fn has_host_among(libs: &[&[u8]]) -> bool
    ensures { result ≡ has_host_among_spec (contents libs.now) }
{
    for lib in libs {
        if has_host(lib) {
            return true;
        }
    }
    false
}
