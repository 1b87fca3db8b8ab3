//! The names of the files of a call, that of the host first.
ghost use Rattle.std.specs.Prelude.{◌≡◌, ◌<◌, ◌∷◌, length};
ghost use Rattle.ps_resolve.specs.Sources.{contents};

/// The name of the host, and those of the libraries, in their order, of the names of all files of
/// which the first is the host's.
pub fn host_first<'n, 'a>(names: &'n [&'a str]) -> (&'a str, &'n [&'a str])
    requires { 0 < length names.now }
    ensures { result.0.now ∷ contents result.1.now ≡ contents names.now }
{
    (names[0], &names[1..])
}
