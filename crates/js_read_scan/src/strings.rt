//! Strings.
ghost use Rattle.std.specs.Prelude.{◌≡◌};
ghost use Rattle.js_tree.specs.Views.{expression_view};
ghost use Rattle.text_scan.specs.Gives.{Gives};
ghost use Rattle.js_read_spec.specs.Tokens.{string_at};

use js_tree::JsExpr;
use std::alloc::Global;
use text_scan::{Stop, literal, units_of};

/// A string behind its first quote.
#[tactic(auto, unfolding(js_read_spec::specs::Tokens::string_at))]
pub fn string_of<'a>(
    alloc: Global,
    fuel: usize,
    bytes: &'a [u8],
) -> Result<(JsExpr, &'a [u8]), Stop>
    ensures { Gives (λ x. (expression_view x.0, x.1.now)) result (string_at fuel bytes.now) }
{
    let (units, rest) = units_of(alloc, fuel, bytes)?;
    let rest = literal(b"\"", rest)?;
    Ok((JsExpr::Text(units), rest))
}
