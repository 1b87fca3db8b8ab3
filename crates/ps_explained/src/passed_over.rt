//! What libraries have that is not used: names that an earlier library has too, and whole libraries
//! from which nothing is taken.
ghost use Rattle.std.specs.Prelude.{◌≡◌, ◌∷◌, ◌++◌, [], OnOk, Some, map, string_bytes};
ghost use Rattle.std.specs.List.{find};
ghost use Rattle.std.specs.Option.{option_map};
ghost use Rattle.ps_codefile.specs.Dictionary.{slots};
ghost use Rattle.ps_resolve.specs.Sources.{contents, is_named as is_named_spec};
ghost use Rattle.ps_check_segments.specs.Paths.{paths_in};
ghost use Rattle.ps_check_segments.specs.Seen.{origin_by, seen};
ghost use Rattle.ps_explained.specs.OverviewText.{comes_from as comes_from_spec, entries_after as entries_after_spec, first_and_more, is_used as is_used_spec, later_entries as later_entries_spec, later_line, later_words, more_words, named_in, named_entry as named_entry_spec, passed_over, unused_libraries as unused_libraries_spec, unused_line, unused_words};
ghost use Rattle.ps_explained.specs.SlotLines.{AddsSlotLines};

use ps_check_segments::{NamedFiles, ReadSegment};
use ps_codefile::Dict;
use ps_codefile::dictionary_layout::SLOTS;
use ps_filetype::{ShownPath, ShownSlot};
use ps_words::Name;
use std::alloc::{AllocError, Allocator};
use std::fmt::{self, Formatter, Write as _};

/// How many libraries there are besides one that is named.
#[derive(Clone, Copy)]
struct More(usize);

impl fmt::Display for More {
    ghost output = { λ more. Some (more_words more.0) };

    fn fmt<W: fmt::Write>(&self, f: &mut Formatter<W>) -> fmt::Result {
        match self.0 {
            0 => Ok(()),
            1 => f.write_str(", and 1 more library"),
            more => write!(f, ", and {more} more libraries"),
        }
    }
}

/// The line of a later library that has a name too: its path, and its first entry of the name.
#[derive(Clone, Copy)]
struct Later<'p> {
    path: &'p str,
    index: u8,
    more: More,
}

impl fmt::Display for Later<'_> {
    ghost output = { λ later. Some (later_words later.path.now later.index later.more.0) };

    fn fmt<W: fmt::Write>(&self, f: &mut Formatter<W>) -> fmt::Result {
        let path = ShownPath(self.path);
        let index = ShownSlot(self.index);
        let more = self.more;
        write!(f, "  not used: {path} entry {index} has the name too{more}")
    }
}

/// The line of a library from which nothing is taken: its number, and its path.
#[derive(Clone, Copy)]
struct Unused<'p> {
    path: &'p str,
    file: usize,
    more: More,
}

impl fmt::Display for Unused<'_> {
    ghost output = { λ unused. Some (unused_words unused.path.now unused.file unused.more.0) };

    fn fmt<W: fmt::Write>(&self, f: &mut Formatter<W>) -> fmt::Result {
        let path = ShownPath(self.path);
        let (file, more) = (self.file, self.more);
        write!(f, "nothing is taken from file {file} {path}{more}")
    }
}

/// Adds which libraries after that of a segment have its name too, in a line, if some have.
#[tactic(auto, using(crate::proofs::SlotLines::adds_none))]
pub(crate) fn add_later_of<A: Allocator>(
    text: &mut String<A>,
    inputs: &NamedFiles<'_>,
    segment: &ReadSegment<'_>,
) -> Result<(), AllocError>
    ensures lines { OnOk result (AddsSlotLines (string_bytes text.old) [] (string_bytes text.new)) }
    ensures text { OnOk result (string_bytes text.new ≡ string_bytes text.old
        ++ later_line (paths_in inputs.now) (first_and_more (passed_over inputs.now.host.now
        (contents inputs.now.libs.now) segment.now.name (origin_by segment.now.source)))) }
{
    match segment.source {
        Ok(source) => add_later(text, inputs, &segment.name, source.at.file),
        Err(_) => Ok(()),
    }
}

/// Adds which libraries after one have a name too, in a line, if some have.
fn add_later<A: Allocator>(
    text: &mut String<A>,
    inputs: &NamedFiles<'_>,
    name: &Name,
    used: usize,
) -> Result<(), AllocError>
    ensures lines { OnOk result (AddsSlotLines (string_bytes text.old) [] (string_bytes text.new)) }
    ensures text { OnOk result (string_bytes text.new ≡ string_bytes text.old
        ++ later_line (paths_in inputs.now) (first_and_more (later_entries_spec inputs.now.host.now
        (contents inputs.now.libs.now) name.now used))) }
{
    match later_entries(inputs, name, used) {
        Some(((file, index), more)) => {
            let path = inputs.path(file);
            push_later(text, Later { path, index, more })
        }
        None => Ok(()),
    }
}

/// Adds the line of a later library that has a name too.
fn push_later<A: Allocator>(text: &mut String<A>, line: Later<'_>) -> Result<(), AllocError>
    ensures { OnOk result (string_bytes text.new ≡ string_bytes text.old
        ++ (later_words line.entry.path.now line.entry.index line.entry.more.0 ++ 10 ∷ [])) }
{
    writeln!(text, "{line}")
}

/// The first library after that of a segment that has an entry of its name, with the entry, and how
/// many more have one; none for a segment of the host.
fn later_entries(inputs: &NamedFiles<'_>, name: &Name, used: usize) -> Option<((usize, u8), More)>
    ensures { option_map (λ l. (l.0, l.1.0)) result ≡ first_and_more (later_entries_spec
        inputs.now.host.now (contents inputs.now.libs.now) name.now used) }
{
    if used == 0 {
        None
    } else {
        entries_after(inputs, name, used)
    }
}

/// The first library after this one that has an entry of the name, with the entry, and how many more
/// have one.
fn entries_after(inputs: &NamedFiles<'_>, name: &Name, used: usize) -> Option<((usize, u8), More)>
    ensures { option_map (λ l. (l.0, l.1.0)) result ≡ first_and_more (entries_after_spec
        inputs.now.host.now (contents inputs.now.libs.now) name.now used) }
{
    let end = inputs.libs.len() + 1;
    let mut later = (used..end)
        .skip(1)
        .filter_map(|file| entry_in(inputs, name, file));
    match later.next() {
        Some(first) => Some((first, More(later.count()))),
        None => None,
    }
}

/// A library with the first entry of it that is filled and has this name, where it has one.
fn entry_in(inputs: &NamedFiles<'_>, name: &Name, file: usize) -> Option<(usize, u8)>
    ensures { result ≡ named_in inputs.now.host.now (contents inputs.now.libs.now) name.now file }
{
    match named_entry(inputs, name, file) {
        Some(entry) => Some((file, entry)),
        None => None,
    }
}

/// The first entry of a library that is filled and has this name.
fn named_entry(inputs: &NamedFiles<'_>, name: &Name, file: usize) -> Option<u8>
    ensures { result ≡ named_entry_spec inputs.now.host.now (contents inputs.now.libs.now)
        name.now file }
{
    match inputs.dict(file) {
        Some(dict) => first_named(&dict, name),
        None => None,
    }
}

/// The first entry that is filled and has this name.
fn first_named(dict: &Dict<'_>, name: &Name) -> Option<u8>
    ensures { result ≡ find (is_named_spec dict.now.order name.now dict.now.file) slots }
{
    (0..SLOTS).find(|slot| dict.filled(*slot) && dict.entry(*slot).name == *name)
}

/// Adds the first library from which nothing is taken, and how many more there are.
pub(crate) fn add_unused<A: Allocator>(
    text: &mut String<A>,
    inputs: &NamedFiles<'_>,
    list: &[ReadSegment<'_>],
) -> Result<(), AllocError>
    ensures lines { OnOk result (AddsSlotLines (string_bytes text.old) [] (string_bytes text.new)) }
    ensures text { OnOk result (string_bytes text.new ≡ string_bytes text.old
        ++ unused_line (paths_in inputs.now) (first_and_more (unused_libraries_spec
        (contents inputs.now.libs.now) (map seen list.now)))) }
{
    match unused_libraries(inputs, list) {
        Some((file, more)) => {
            let path = inputs.path(file);
            push_unused(text, Unused { path, file, more })
        }
        None => Ok(()),
    }
}

/// Adds the line of a library from which nothing is taken.
fn push_unused<A: Allocator>(text: &mut String<A>, line: Unused<'_>) -> Result<(), AllocError>
    ensures { OnOk result (string_bytes text.new ≡ string_bytes text.old
        ++ (unused_words line.entry.path.now line.entry.file line.entry.more.0 ++ 10 ∷ [])) }
{
    writeln!(text, "{line}")
}

/// The first library from which nothing is taken, and how many more there are.
#[tactic(auto, unfolding(crate::specs::OverviewText::unused_libraries))]
fn unused_libraries(inputs: &NamedFiles<'_>, list: &[ReadSegment<'_>]) -> Option<(usize, More)>
    ensures { option_map (λ u. (u.0, u.1.0)) result ≡ first_and_more (unused_libraries_spec
        (contents inputs.now.libs.now) (map seen list.now)) }
{
    let end = inputs.libs.len() + 1;
    let mut unused = (1..end).filter(|file| !is_used(list, *file));
    match unused.next() {
        Some(first) => Some((first, More(unused.count()))),
        None => None,
    }
}

/// Some segment comes from the file.
fn is_used(list: &[ReadSegment<'_>], file: usize) -> bool
    ensures { result ≡ is_used_spec (map seen list.now) file }
{
    for segment in list {
        if comes_from(segment, file) {
            return true;
        }
    }
    false
}

/// The segment comes from the file.
fn comes_from(segment: &ReadSegment<'_>, file: usize) -> bool
    ensures { result ≡ comes_from_spec file (seen segment.now) }
{
    match segment.source {
        Ok(source) => source.at.file == file,
        Err(_) => false,
    }
}
