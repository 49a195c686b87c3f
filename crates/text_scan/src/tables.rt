//! The words of a table.
ghost use Rattle.std.specs.Prelude.{◌≡◌, ◌≤◌, [], true, map, length, take, drop};
ghost use Rattle.exact_place.specs.Reading.{run_at};
ghost use Rattle.exact_place.specs.Tokens.{is_front, begins_entry, entry_of};
ghost use Rattle.js_read_spec.specs.Words.{entry};
ghost use Rattle.text_scan.specs.Gives.{Gives};
ghost use Rattle.text_scan.specs.Runs.{IsSplit};

use crate::stop::Stop;

// Whether the text begins so.
#[tactic(auto, using(crate::proofs::TableWords::front_prefix))]
fn begins(word: &[u8], text: &[u8]) -> bool
    ensures { result ≡ is_front word.now text.now }
{
    text.starts_with(word)
}

// Whether a word of the table begins so.
fn begins_word<T: Copy>(table: &[(&str, T)], word: &[u8]) -> bool
    ensures { result ≡ begins_entry (map (λ e. entry e.0.now e.1) table.now) word.now }
{
    for line in table {
        if begins(word, line.0.as_bytes()) {
            return true;
        }
    }
    false
}

/// The value of a word of the table, if it is one.
pub fn value_of<T: Copy>(table: &[(&str, T)], word: &[u8]) -> Option<T>
    ensures { result ≡ entry_of (map (λ e. entry e.0.now e.1) table.now) word.now }
{
    for line in table {
        if word == line.0.as_bytes() {
            return Some(line.1);
        }
    }
    None
}

// How many of the first bytes a word of the table begins with.
fn word_length<T: Copy>(table: &[(&str, T)], bytes: &[u8]) -> usize
    requires { begins_entry (map (λ e. entry e.0.now e.1) table.now) [] ≡ true }
    ensures within { result ≤ length bytes.now }
    ensures split { IsSplit (begins_entry (map (λ e. entry e.0.now e.1) table.now)) bytes.now (take result bytes.now) (drop result bytes.now) }
{
    for i in 0..bytes.len() {
        if !begins_word(table, &bytes[..i + 1]) {
            return i;
        }
    }
    bytes.len()
}

// The longest front that begins a word of the table, and the rest.
fn split_word<'a, T: Copy>(table: &[(&str, T)], bytes: &'a [u8]) -> (&'a [u8], &'a [u8])
    requires { begins_entry (map (λ e. entry e.0.now e.1) table.now) [] ≡ true }
    ensures { IsSplit (begins_entry (map (λ e. entry e.0.now e.1) table.now)) bytes.now result.0.now result.1.now }
{
    bytes.split_at(word_length(table, bytes))
}

/// The value of the longest front that begins a word of the table, and the rest. It stops behind that front where it is no word.
pub fn word_of<'a, T: Copy>(table: &[(&str, T)], bytes: &'a [u8]) -> Result<(T, &'a [u8]), Stop>
    requires { begins_entry (map (λ e. entry e.0.now e.1) table.now) [] ≡ true }
    ensures { Gives (λ x. (x.0, x.1.now)) result (run_at (begins_entry (map (λ e. entry e.0.now e.1) table.now)) (entry_of (map (λ e. entry e.0.now e.1) table.now)) [] bytes.now) }
{
    let (word, rest) = split_word(table, bytes);
    match value_of(table, word) {
        Some(value) => Ok((value, rest)),
        None => Err(Stop::Bad(rest.len())),
    }
}
