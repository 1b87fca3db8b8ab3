//! How the files of a check are named: one name after another in one buffer, with their lengths
//! beside.
ghost use Rattle.std.specs.Prelude.{◌≡◌, ◌↔◌, All, IsTrue, IsUtf8, IfOk, IfErr, length, sum};
ghost use Rattle.ps_resolve.specs.Sources.{contents};
ghost use Rattle.ps_c_texts.specs.Checks.{WhyUnnamed};
ghost use Rattle.ps_c_link.specs.Libraries.{split as split_spec};

use ps_c_link::{NotDone, WrongInputs, split};
use std::alloc::Allocator;

/// The name is UTF-8.
fn is_utf8(name: &[u8]) -> bool
    ensures { IsTrue result ↔ IsUtf8 name.now }
{
    str::from_utf8(name).is_ok()
}

/// Each of the names that are one after another in `names`, with these lengths, is UTF-8. They are
/// looked at before memory is requested, so that a wrong name is told whatever memory there is.
pub(crate) fn are_utf8(names: &[u8], lengths: &[usize]) -> bool
    requires { sum lengths.now ≡ length names.now }
    ensures { IsTrue result ↔ All IsUtf8 (split_spec names.now lengths.now) }
{
    let mut rest = names;
    for length in lengths {
        let (name, behind) = rest.split_at(*length);
        if !is_utf8(name) {
            return false;
        }
        rest = behind;
    }
    true
}

/// The names as texts, one for one.
fn texts<'a, A: Allocator + Copy>(alloc: A, names: &[&'a [u8]]) -> Result<Vec<&'a str, A>, NotDone>
    ensures same { IfOk result (λ texts. contents texts.items ≡ contents names.now) }
    ensures utf8 { IfOk result (λ _. All IsUtf8 (contents names.now)) }
    ensures err { IfErr result (WhyUnnamed (All IsUtf8 (contents names.now))) }
{
    let mut texts = Vec::new(alloc);
    for name in names {
        let Ok(text) = str::from_utf8(name) else {
            return Err(NotDone::Wrong(WrongInputs::Names));
        };
        texts.push(text)?;
    }
    Ok(texts)
}

/// The names that are one after another in `names`, with these lengths.
pub(crate) fn file_names<'a, A: Allocator + Copy>(
    alloc: A,
    names: &'a [u8],
    lengths: &[usize],
) -> Result<Vec<&'a str, A>, NotDone>
    requires { sum lengths.now ≡ length names.now }
    ensures cut { IfOk result (λ texts. contents texts.items
        ≡ split_spec names.now lengths.now) }
    ensures many { IfOk result (λ texts. length texts.items ≡ length lengths.now) }
    ensures utf8 { IfOk result (λ _. All IsUtf8 (split_spec names.now lengths.now)) }
    ensures err { IfErr result (WhyUnnamed (All IsUtf8 (split_spec names.now lengths.now))) }
{
    let parts = split::<0, &A>(&alloc, names, lengths)?;
    texts(alloc, parts.as_slice())
}
