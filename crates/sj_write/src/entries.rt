// The entries of the table of strings.
ghost use Rattle.std.specs.Prelude.{◌≡◌, nat_eq};
ghost use Rattle.std.specs.Hash as fed;
ghost use Rattle.std.specs.Cmp.Lexicographic.{pointwise, nat_list_eq_equiv};
ghost use Rattle.std.specs.Cmp.{partial_equiv_from_equiv};
ghost use Rattle.std.specs.Cmp.Rules.{hashing};
ghost use Rattle.std.proofs.Common.{rules};

use sj_units::Units;
use std::hash::{Hash, Hasher};
use std::marker::Model;

/// A string as an entry of its table: two are equal where their units are.
#[derive(Drop)]
pub struct StringEntry {
    units: Units,
}

impl Model for StringEntry {
    ghost use Rattle.std.specs.Prelude.{List, ℕ};

    ghost Value = { List ℕ };

    ghost view = { λ s. s.units };
}

impl StringEntry {
    // The entry of this string.
    pub fn new(units: Units) -> StringEntry
        ensures { result ≡ units }
    {
        StringEntry { units }
    }

    // The string of the entry.
    pub fn units(&self) -> &Units
        ensures { result.now ≡ self.now }
    {
        &self.units
    }
}

impl PartialEq for StringEntry {
    ghost eq = { pointwise nat_eq };

    ghost laws = { partial_equiv_from_equiv nat_list_eq_equiv };

    fn eq(&self, other: &StringEntry) -> bool {
        self.units.as_slice() == other.units.as_slice()
    }
}

impl Eq for StringEntry {
    ghost laws = { nat_list_eq_equiv };
}

impl Hash for StringEntry {
    ghost hash_input = { fed.slice fed.u16 };

    ghost respects_eq = { Prim.search (hashing, rules) };

    fn hash<H: Hasher>(&self, state: &mut H) {
        self.units.as_slice().hash(state);
    }
}
