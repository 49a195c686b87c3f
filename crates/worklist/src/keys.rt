// What is found by a search.
ghost use Rattle.std.specs.Prelude.{◌≡◌, true, IfOk};
ghost use Rattle.std.proofs.lemmas.Slice.Eq.{bytes_eq-Decides};

use sj_names::{ClassName, NoMemory, SimpleName};
use std::hash::Hash;

/// What a search goes over. Keys that are equal by `==` are the same.
pub trait Key: Eq + Hash + Drop {
    /// The same key once more.
    fn again(&self) -> Result<Self, NoMemory>
        ensures { IfOk result (λ key. key ≡ self.now) };

    ghost same: { (a b : Self) → Self.eq a b ≡ true → a ≡ b };
}

impl Key for ClassName {
    ghost same = { λ x y. (bytes_eq-Decides x y).0 };

    fn again(&self) -> Result<ClassName, NoMemory> {
        Ok(self.copied()?)
    }
}

impl Key for SimpleName {
    ghost same = { λ x y. (bytes_eq-Decides x y).0 };

    fn again(&self) -> Result<SimpleName, NoMemory> {
        Ok(self.copied()?)
    }
}
