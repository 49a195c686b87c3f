//! The first bytes of a text: tests and literals.
ghost use Rattle.std.specs.Prelude.{◌≡◌, ◌==◌, not};
ghost use Rattle.exact_place.specs.Reading.{passes, literal_at};
ghost use Rattle.exact_place.specs.Tokens.{is_digit};
ghost use Rattle.text_scan.specs.Gives.{Gives};

use crate::stop::Stop;

/// Whether the next byte is this one.
pub fn next_is(byte: u8, bytes: &[u8]) -> bool
    ensures { result ≡ passes (λ c. c == byte) bytes.now }
{
    match bytes {
        [first, ..] => *first == byte,
        [] => false,
    }
}

/// Whether there is a next byte, and it is not this one.
pub fn next_other(byte: u8, bytes: &[u8]) -> bool
    ensures { result ≡ passes (λ c. not (c == byte)) bytes.now }
{
    match bytes {
        [first, ..] => *first != byte,
        [] => false,
    }
}

/// Whether the next byte is a digit.
pub fn next_is_digit(bytes: &[u8]) -> bool
    ensures { result ≡ passes is_digit bytes.now }
{
    match bytes {
        [first, ..] => first.is_ascii_digit(),
        [] => false,
    }
}

/// What follows these bytes. It stops at the first byte that is another.
#[tactic(auto, using(crate::proofs::Literals::literal_steps))]
pub fn literal<'a>(want: &[u8], bytes: &'a [u8]) -> Result<&'a [u8], Stop>
    ensures { Gives (λ r. (tt, r.now)) result (literal_at want.now bytes.now) }
{
    let mut rest = bytes;
    for byte in want {
        if !next_is(*byte, rest) {
            return Err(Stop::Bad(rest.len()));
        }
        rest = &rest[1..];
    }
    Ok(rest)
}
