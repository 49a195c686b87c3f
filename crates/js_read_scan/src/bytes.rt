//! The first bytes of a text: tests and indentation.
ghost use Rattle.std.specs.Prelude.{◌≡◌, ◌*◌, ◌≤◌, length, IfOk};
ghost use Rattle.exact_place.specs.Reading.{passes, literal_at};
ghost use Rattle.js_tree.specs.Names.{is_name_character};
ghost use Rattle.js_tree.specs.Written.{indent};
ghost use Rattle.text_scan.specs.Gives.{Gives};
ghost use Rattle.js_read_spec.specs.Words.{is_word_start};
ghost use Rattle.js_read_spec.specs.Expressions.{is_suffix};

use text_scan::{Stop, literal};

/// Whether the byte is a letter, a digit, `_` or `$`.
pub fn is_name_byte(byte: u8) -> bool
    ensures { result ≡ is_name_character byte }
{
    byte.is_ascii_alphanumeric() || byte == b'_' || byte == b'$'
}

/// Whether the next byte begins a word.
pub fn next_is_word_start(bytes: &[u8]) -> bool
    ensures { result ≡ passes is_word_start bytes.now }
{
    match bytes {
        [first, ..] => is_name_byte(*first) && !first.is_ascii_digit(),
        [] => false,
    }
}

/// Whether the next byte is `.` or `[`.
pub fn next_is_suffix(bytes: &[u8]) -> bool
    ensures { result ≡ passes is_suffix bytes.now }
{
    match bytes {
        [first, ..] => *first == b'.' || *first == b'[',
        [] => false,
    }
}

/// What follows two spaces for each level.
pub fn indentation(level: usize, bytes: &[u8]) -> Result<&[u8], Stop>
    ensures gives { Gives (λ r. (tt, r.now)) result (literal_at (indent level) bytes.now) }
    ensures room { IfOk result (λ r. 2 * level ≤ length bytes.now) }
{
    let mut rest = bytes;
    for _ in 0..level {
        rest = literal(b"  ", rest)?;
    }
    Ok(rest)
}
