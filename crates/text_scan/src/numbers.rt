//! Numbers in decimal.
ghost use Rattle.std.specs.Prelude.{◌≡◌, ◌<◌, ◌≤◌, ◌-◌, ◌^◌, negsuc, false, IfOk, []};
ghost use Rattle.exact_place.specs.Reading.{run_at};
ghost use Rattle.exact_place.specs.Tokens.{begins_number, number_of};
ghost use Rattle.text_scan.specs.Gives.{Gives};
ghost use Rattle.text_scan.specs.Runs.{number_run};

use crate::bytes::{next_is, next_is_digit};
use crate::stop::Stop;

// The number that the longest run of digits gives that stays below the limit, and the rest.
fn longest_number<'a>(limit: u128, bytes: &'a [u8]) -> (u128, &'a [u8])
    requires some { 0 < limit }
    requires fits { limit < 2 ^ 100 }
    ensures below { result.0 < limit }
    ensures run { number_run limit 0 bytes.now ≡ (result.0, result.1.now) }
{
    let mut value: u128 = 0;
    for (i, byte) in bytes.iter().enumerate() {
        if !byte.is_ascii_digit() {
            return (value, &bytes[i..]);
        }
        let next = value * 10 + u128::from(*byte - b'0');
        if next >= limit {
            return (value, &bytes[i..]);
        }
        value = next;
    }
    (value, &bytes[bytes.len()..])
}

/// The number that the longest run of digits gives that stays below the limit, and the rest. A zero stands alone, where it may stand.
/// It stops where no digit stands, and at a zero that may not.
#[tactic(auto)]
pub fn digits_of<'a>(nought: bool, limit: u128, bytes: &'a [u8]) -> Result<(u128, &'a [u8]), Stop>
    requires some { 9 < limit }
    requires fits { limit < 2 ^ 100 }
    ensures gives { Gives (λ x. (x.0, x.1.now)) result (run_at (begins_number nought limit) (number_of nought limit) [] bytes.now) }
    ensures below { IfOk result (λ x. x.0 < limit) }
    ensures some { IfOk result (λ x. nought ≡ false → 0 < x.0) }
{
    if next_is(b'0', bytes) {
        if nought {
            Ok((0, &bytes[1..]))
        } else {
            Err(Stop::Bad(bytes.len()))
        }
    } else if next_is_digit(bytes) {
        Ok(longest_number(limit, bytes))
    } else {
        Err(Stop::Bad(bytes.len()))
    }
}

/// The number with its sign turned.
pub fn negated(value: u128) -> i64
    requires some { 0 < value }
    requires fits { value ≤ 2 ^ 63 }
    ensures { result ≡ negsuc (value - 1) }
{
    -1 - ((value - 1) as i64)
}
