//! Paths that lead to one file.
ghost use Rattle.std.specs.Prelude.{◌≡◌, ℕ, Bool, List, IfSome, None, map};
ghost use Rattle.ps_arguments.specs.Requests.{LeadsToNone, LeadsToSome};

/// Knows which paths lead to one file.
pub trait SameFile {
    // Holds of two paths and of whether they were found to lead to one file.
    ghost one_file: { Self → List ℕ → List ℕ → Bool → Type 0 };

    /// The paths lead to one file, as two names of it or a link do. Where no file is, or no regular
    /// one, they do not.
    fn lead_to_one_file(&self, path: &str, other: &str) -> bool
        ensures { one_file self.now path.now other.now result };
}

/// The first of the paths that leads to the file at `out`.
pub(crate) fn first_to<'a, F: SameFile>(files: &F, paths: &[&'a str], out: &str) -> Option<&'a str>
    ensures none { result ≡ None → LeadsToNone (F.one_file files.now) out.now
        (map (λ path. path.now) paths.now) }
    ensures some { IfSome result (λ _. LeadsToSome (F.one_file files.now) out.now
        (map (λ path. path.now) paths.now)) }
{
    for path in paths {
        if files.lead_to_one_file(out, path) {
            return Some(*path);
        }
    }
    None
}
