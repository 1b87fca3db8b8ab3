ghost use Rattle.std.specs.Prelude.{◌≡◌, slice_get};
ghost use Rattle.ps_linkinfo.specs.Numbered.{numbered_records};
ghost use Rattle.ps_linkinfo.specs.Sorts.{first_named, is_named as is_named_spec, is_of_sort};

use crate::information::LinkInformation;
use crate::record::{Body, LinkRecord};
use ps_words::Name;

/// What a record is that is looked for by its name.
/// Source: the published II.0 Linker source.
#[derive(Clone, Copy, Debug, PartialEq, Eq)]
pub enum Sort {
    /// A record that requests a public variable or a constant: PUBLREF.
    Request,
    /// A record that defines a public variable: PUBLDEF.
    Variable,
    /// A record that defines a public variable or a constant: PUBLDEF or CONSTDEF.
    Definition,
    /// A record that has a private variable: PRIVREF.
    Private,
}

impl Sort {
    /// A record that says this is of this sort.
    /// Source: the published II.0 Linker source.
    pub fn has(self, body: &Body<'_>) -> bool
        ensures { result ≡ is_of_sort self body.now }
    {
        let kind = body.kind();
        match self {
            Sort::Request => kind.requests_public(),
            Sort::Variable => kind.defines_variable(),
            Sort::Definition => kind.defines_name(),
            Sort::Private => kind.requests_private(),
        }
    }
}

/// The record has this name, and is of this sort.
fn is_named(entry: &LinkRecord<'_>, name: &Name, sort: Sort) -> bool
    ensures { result ≡ is_named_spec name.now sort entry.now }
{
    *name == entry.name && sort.has(&entry.body)
}

impl<'a> LinkInformation<'a> {
    /// The record with this index, from 0; `None` where there are not so many.
    pub fn record(&self, rec: usize) -> Option<LinkRecord<'a>>
        ensures { result ≡ slice_get self.now rec }
    {
        for (other, entry) in self.records() {
            if other == rec {
                return Some(entry);
            }
        }
        None
    }

    /// The first record of this name and sort, with its index from 0.
    pub fn find(&self, name: &Name, sort: Sort) -> Option<(usize, LinkRecord<'a>)>
        ensures { result ≡ first_named name.now sort (numbered_records 0 self.now) }
    {
        for (rec, record) in self.records() {
            if is_named(&record, name, sort) {
                return Some((rec, record));
            }
        }
        None
    }
}
