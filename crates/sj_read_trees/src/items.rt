// Lists of things that don't hold each other.
ghost use Rattle.std.specs.Prelude.{◌≡◌, map};
ghost use Rattle.sj_read_spec.specs.Reading.{many_at, list_at};
ghost use Rattle.sj_read_trees.specs.Stops.{Gives};

use crate::fields::number_of;
use crate::stops::Stop;
use std::alloc::Global;

/// A thing that a file may have any number of.
pub trait Item {
    type Value: Drop;

    ghost use Rattle.std.specs.Prelude.{List, ℕ};
    ghost use Rattle.sj_read_spec.specs.Reading.{Reading};
    ghost use Rattle.sj_read_trees.specs.Stops.{Gives};

    ghost Seen: { Type 0 };

    ghost seen: { Self.Value → Seen };

    ghost reading: { Self → List ℕ → Reading Seen };

    // One thing, and the bytes behind it.
    fn read<'a>(&self, alloc: Global, bytes: &'a [u8]) -> Result<(Self::Value, &'a [u8]), Stop>
        ensures { Gives (λ x. (seen x.0, x.1.now)) result (reading self.now bytes.now) };
}

// This many things.
pub fn many<'a, I: Item>(
    alloc: Global,
    item: &I,
    count: u32,
    bytes: &'a [u8],
) -> Result<(Vec<I::Value>, &'a [u8]), Stop>
    ensures { Gives (λ x. (map I.seen x.0.items, x.1.now)) result (many_at (I.reading item.now) count bytes.now) }
{
    let mut items = Vec::new(alloc);
    let mut rest = bytes;
    for _ in 0..count {
        let (value, after) = item.read(alloc, rest)?;
        items.push(value)?;
        rest = after;
    }
    Ok((items, rest))
}

/// A count, and so many things.
pub fn list_of<'a, I: Item>(
    alloc: Global,
    item: &I,
    bytes: &'a [u8],
) -> Result<(Vec<I::Value>, &'a [u8]), Stop>
    ensures { Gives (λ x. (map I.seen x.0.items, x.1.now)) result (list_at (I.reading item.now) bytes.now) }
{
    let (count, rest) = number_of(bytes)?;
    many(alloc, item, count, rest)
}
