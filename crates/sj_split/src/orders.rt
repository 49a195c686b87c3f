// Lists in order, with each item once.
ghost use Rattle.std.specs.Prelude.{◌≡◌, ◌↔◌, true, Contains};
ghost use Rattle.std.specs.List.Sorted.{IsStrictlySortedBy};
ghost use Rattle.std.proofs.lemmas.Slice.Eq.{bytes_eq-Decides};

use sj_names::{ClassName, Text};

/// Items of which two that are equal by `==` are the same.
pub trait Exact: Ord + Drop {
    ghost same: { (a b : Self) → Self.eq a b ≡ true → a ≡ b };
}

impl Exact for Text {
    ghost same = { λ x y. (bytes_eq-Decides x y).0 };
}

impl Exact for ClassName {
    ghost same = { λ x y. (bytes_eq-Decides x y).0 };
}

/// The items in their order, each once.
pub fn each_once_in_order<T: Exact>(mut items: Vec<T>) -> Vec<T>
    ensures increasing { IsStrictlySortedBy T.cmp result.items }
    ensures exact { (item : T) → Contains result.items item ↔ Contains items.items item }
{
    items.sort_unstable();
    items.dedup();
    items
}
