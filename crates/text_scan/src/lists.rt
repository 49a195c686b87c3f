//! Lists of parts that hold no list of the same kind.
ghost use Rattle.std.specs.Prelude.{◌≡◌, ◌∷◌, List, ℕ, Bool, map, IfOk};
ghost use Rattle.exact_place.specs.Reading.{Reading, passes, list_at};
ghost use Rattle.text_scan.specs.Gives.{Gives};

use crate::stop::Stop;
use sj_names::NoMemory;
use std::alloc::Global;

/// A part of which several may follow each other.
pub trait Item {
    type Value: Drop;

    ghost Seen: { Type 0 };

    ghost seen: { Self.Value → Seen };

    ghost test: { Self → ℕ → Bool };

    ghost reading: { Self → List ℕ → Reading Seen };

    /// Whether one more part begins here.
    fn starts(&self, bytes: &[u8]) -> bool
        ensures { result ≡ passes (test self.now) bytes.now };

    fn read<'a>(&self, alloc: Global, bytes: &'a [u8]) -> Result<(Self::Value, &'a [u8]), Stop>
        ensures { Gives (λ x. (seen x.0, x.1.now)) result (reading self.now bytes.now) };
}

/// The parts, as long as one more begins, and the rest. It stops where a part does, and where `fuel` parts are not all.
pub fn list_of<'a, I: Item>(
    alloc: Global,
    fuel: usize,
    item: &I,
    bytes: &'a [u8],
) -> Result<(Vec<I::Value>, &'a [u8]), Stop>
    ensures { Gives (λ x. (map I.seen x.0.items, x.1.now)) result (list_at fuel (I.test item.now) (I.reading item.now) bytes.now) }
{
    let mut items = Vec::new(alloc);
    let mut rest = bytes;
    for _ in 0..fuel {
        if !item.starts(rest) {
            return Ok((items, rest));
        }
        let (value, after) = item.read(alloc, rest)?;
        items.push(value)?;
        rest = after;
    }
    Err(Stop::Bad(rest.len()))
}

/// The list with one more part in front.
pub fn in_front<T: Drop>(first: T, others: Vec<T>) -> Result<Vec<T>, NoMemory>
    ensures { IfOk result (λ all. all.items ≡ first ∷ others.items) }
{
    let mut all = others;
    all.insert(0, first)?;
    Ok(all)
}
