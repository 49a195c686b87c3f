// Lists of parts in brackets.
ghost use Rattle.std.specs.Prelude.{◌≡◌, List, ℕ, map};
ghost use Rattle.exact_place.specs.Reading.{Reading};
ghost use Rattle.sj_text_spec.specs.Reading.{bracketed_at};
ghost use Rattle.text_scan.specs.Gives.{Gives};

use std::alloc::Global;
use text_scan::{Item, Stop, in_front, list_of, literal, next_is};

/// A part that stands in brackets with others.
pub trait Part {
    type Value: Drop;

    ghost Seen: { Type 0 };

    ghost seen: { Self.Value → Seen };

    ghost reading: { Self → List ℕ → Reading Seen };

    fn read<'a>(&self, alloc: Global, bytes: &'a [u8]) -> Result<(Self::Value, &'a [u8]), Stop>
        ensures { Gives (λ x. (seen x.0, x.1.now)) result (reading self.now bytes.now) };
}

/// A part behind a space.
#[derive(Drop)]
struct Spaced<'p, P: Part> {
    part: &'p P,
}

impl<'p, P: Part> Item for Spaced<'p, P> {
    ghost use Rattle.std.specs.Prelude.{codes, ◌==◌};
    ghost use Rattle.exact_place.specs.Reading.{lead_at};

    type Value = P::Value;

    ghost Seen = { P.Seen };

    ghost seen = { P.seen };

    ghost test = { λ s c. c == 32 };

    ghost reading = { λ s. lead_at (codes " ") (P.reading s.part.now) };

    fn starts(&self, bytes: &[u8]) -> bool {
        next_is(b' ', bytes)
    }

    fn read<'a>(&self, alloc: Global, bytes: &'a [u8]) -> Result<(P::Value, &'a [u8]), Stop> {
        self.part.read(alloc, literal(b" ", bytes)?)
    }
}

/// Parts in brackets, with a space between each two.
#[tactic(auto, unfolding(sj_text_spec::specs::Reading::bracketed_at))]
pub fn bracketed_of<'a, P: Part>(
    alloc: Global,
    fuel: usize,
    part: &P,
    bytes: &'a [u8],
) -> Result<(Vec<P::Value>, &'a [u8]), Stop>
    ensures { Gives (λ x. (map P.seen x.0.items, x.1.now)) result (bracketed_at fuel (P.reading part.now) bytes.now) }
{
    let rest = literal(b"[", bytes)?;
    if next_is(b']', rest) {
        let rest = literal(b"]", rest)?;
        return Ok((Vec::new(alloc), rest));
    }
    let (first, rest) = part.read(alloc, rest)?;
    let (others, rest) = list_of(alloc, fuel, &Spaced { part }, rest)?;
    let rest = literal(b"]", rest)?;
    Ok((in_front(first, others)?, rest))
}
