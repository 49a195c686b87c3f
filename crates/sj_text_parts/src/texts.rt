// Texts of 16-bit units.
ghost use Rattle.std.specs.Prelude.{◌≡◌};
ghost use Rattle.text_scan.specs.Gives.{Gives};
ghost use Rattle.sj_text_spec.specs.Reading.{text_at};

use sj_units::Units;
use std::alloc::Global;
use text_scan::{Stop, literal, units_of};

/// A text.
#[tactic(auto, unfolding(sj_text_spec::specs::Reading::text_at))]
pub fn text_of<'a>(alloc: Global, fuel: usize, bytes: &'a [u8]) -> Result<(Units, &'a [u8]), Stop>
    ensures { Gives (λ x. (x.0, x.1.now)) result (text_at fuel bytes.now) }
{
    let rest = literal(b"\"", bytes)?;
    let (units, rest) = units_of(alloc, fuel, rest)?;
    let rest = literal(b"\"", rest)?;
    Ok((units, rest))
}
