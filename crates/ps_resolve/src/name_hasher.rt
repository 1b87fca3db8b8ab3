ghost use Rattle.std.specs.Prelude.{◌≡◌, ◌∷◌, [], bytes_eq};
ghost use Rattle.std.specs.Cmp.Rules.{comparing, hashing};
ghost use Rattle.std.proofs.Common.{rules};
ghost use Rattle.ps_linkinfo.specs.RecordCounts.{digest_of};

use ps_linkinfo::LinkInformation;
use ps_reading::is_same_name;
use ps_words::Name;
use std::hash::{BuildHasher, DefaultHasher, Hash, Hasher};
use std::marker::Model;

/// A name in a table by hashes. It is hashed in one write of its eight bytes, where an array would
/// be in nine, of its length and of each byte, and it is compared as one word.
#[derive(Clone, Copy)]
pub(crate) struct NameKey(pub(crate) Name);

impl Model for NameKey {
    ghost use Rattle.std.specs.Prelude.{List, ℕ};

    ghost Value = { List ℕ };

    ghost view = { λ k. k.0 };

    ghost inverse = { λ name. record { 0 = name } };
}

impl PartialEq for NameKey {
    ghost eq = { bytes_eq };

    ghost laws = { Prim.search (comparing, rules) };

    fn eq(&self, other: &NameKey) -> bool {
        is_same_name(self.0, other.0)
    }
}

impl Eq for NameKey {
    ghost laws = { Prim.search (comparing, rules) };
}

impl Hash for NameKey {
    ghost hash_input = { λ name. name ∷ [] };

    ghost respects_eq = { Prim.search (hashing, rules) };

    fn hash<H: Hasher>(&self, state: &mut H) {
        state.write(&self.0);
    }
}

/// Hashes each name from a state that has hashed the names of the definitions and the privates of
/// a segment.
///
/// The state is a function of the names, so it can be computed by who chooses them. But each change
/// of a name changes the hashes of all, so names that collide have to be searched for as a whole
/// list. And the hashes stay a function of the input.
#[derive(Clone, Copy)]
pub(crate) struct NameHasher {
    from: DefaultHasher,
}

impl Model for NameHasher {
    ghost use Rattle.std.specs.declared.hash.DefaultHasher.{DefaultHasher};

    ghost Value = { DefaultHasher };

    ghost view = { λ k. k.from };

    ghost inverse = { λ s. record { from = s } };
}

impl NameHasher {
    /// For the names of these records.
    pub(crate) fn of(records: &LinkInformation) -> NameHasher
        ensures { result ≡ digest_of records.now }
    {
        NameHasher {
            from: records.digest(),
        }
    }
}

impl BuildHasher for NameHasher {
    type Hasher = DefaultHasher;

    ghost build_hasher = { λ k. k };

    fn build_hasher(&self) -> DefaultHasher {
        self.from
    }
}
