//! What clap found of the arguments of a command.
ghost use Rattle.std.specs.Prelude.{◌≡◌, IfOk, [], is_some, map, option_map, unwrap_or};
ghost use Rattle.clap.specs.Words.{all_of, first_of, found_of, rows_of};
ghost use Rattle.ps_arguments.specs.Outputs.{has_flag as has_flag_spec};

use clap::ArgMatches;
use std::alloc::{AllocError, Allocator};

/// The flag of this name is given.
#[tactic(auto, using(crate::proofs::ByRows::by_rows))]
pub(crate) fn has_flag(found: &ArgMatches<'_>, name: &str) -> bool
    ensures { result ≡ has_flag_spec name.now (rows_of (found_of found.now)) }
{
    match found.get_str(name) {
        Some(value) => value == "true",
        None => false,
    }
}

/// An argument of this name is given.
#[tactic(auto, using(crate::proofs::ByRows::by_rows))]
pub(crate) fn is_given(found: &ArgMatches<'_>, name: &str) -> bool
    ensures { result ≡ is_some (first_of name.now (rows_of (found_of found.now))) }
{
    found.get_str(name).is_some()
}

/// The value that is given for an argument, if there is one.
#[tactic(auto, using(crate::proofs::ByRows::by_rows))]
pub(crate) fn value_of<'a>(found: &ArgMatches<'a>, name: &str) -> Option<&'a str>
    ensures { option_map (λ value. value.now) result
        ≡ first_of name.now (rows_of (found_of found.now)) }
{
    found.get_str(name)
}

/// The paths that are given for an argument, in their order.
#[tactic(auto, using(crate::proofs::ByRows::by_rows))]
pub(crate) fn paths_of<'a, A: Allocator + Copy>(
    alloc: A,
    found: &ArgMatches<'a>,
    argument: &str,
) -> Result<Vec<&'a str, A>, AllocError>
    ensures { IfOk result (λ paths. map (λ path. path.now) paths.items
        ≡ unwrap_or (all_of argument.now (rows_of (found_of found.now))) []) }
{
    match found.get_strs(argument) {
        Some(paths) => Vec::from_slice(alloc, paths),
        None => Ok(Vec::new(alloc)),
    }
}
