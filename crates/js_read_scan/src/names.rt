//! Names: which words are names, and where a run of their characters ends.
ghost use Rattle.std.specs.Prelude.{◌≡◌, ◌<◌, ◌++◌, length, IfOk, ◌==◌, codes, not, true, nat_lt};
ghost use Rattle.std.specs.List.{list_all, list_any};
ghost use Rattle.js_tree.specs.Names.{is_name_character, is_mark, is_empty, is_name, is_dunder, is_property, is_file_character};
ghost use Rattle.js_read_spec.specs.Words.{begins_name, begins_property};
ghost use Rattle.js_read_spec.specs.Modules.{begins_file};
ghost use Rattle.text_scan.specs.Runs.{IsSplit};
ghost use Rattle.js_read_scan.specs.Runs.{IsLongest};

use crate::bytes::{is_name_byte, next_is_word_start};
use sj_names::{NoMemory, Text};
use std::alloc::Global;
use std::str;

fn is_mark_byte(byte: u8) -> bool
    ensures { result ≡ is_mark byte }
{
    byte == b'_' || byte == b'$' || byte.is_ascii_digit()
}

// Whether the byte is a small letter, a digit or `-`.
fn is_file_byte(byte: u8) -> bool
    ensures { result ≡ is_file_character byte }
{
    byte.is_ascii_lowercase() || byte.is_ascii_digit() || byte == b'-'
}

fn all_name_bytes(word: &[u8]) -> bool
    ensures { result ≡ list_all is_name_character word.now }
{
    word.iter().all(|byte| is_name_byte(*byte))
}

fn any_mark(word: &[u8]) -> bool
    ensures { result ≡ list_any is_mark word.now }
{
    word.iter().any(|byte| is_mark_byte(*byte))
}

/// Whether the word has no character.
pub fn has_nothing(word: &[u8]) -> bool
    ensures { result ≡ is_empty word.now }
{
    match word {
        [] => true,
        [_, ..] => false,
    }
}

/// Whether the word is the name of a binding or a label.
pub fn is_binding_name(word: &[u8]) -> bool
    ensures { result ≡ is_name word.now }
{
    match word {
        [first, others @ ..] => {
            all_name_bytes(word)
                && !first.is_ascii_digit()
                && (any_mark(word) || has_nothing(others))
        }
        [] => false,
    }
}

fn has_two_underscores(word: &[u8]) -> bool
    ensures { result ≡ is_dunder word.now }
{
    match word {
        [first, second, ..] => *first == b'_' && *second == b'_',
        [_] => false,
        [] => false,
    }
}

/// Whether the word is the name of a property.
pub fn is_property_name(word: &[u8]) -> bool
    ensures { result ≡ is_property word.now }
{
    is_binding_name(word) && !has_two_underscores(word)
        || word == b"length".as_slice()
        || word == b"fill".as_slice()
        || word == b"charCodeAt".as_slice()
}

fn name_length(bytes: &[u8]) -> usize
    ensures { IsLongest is_name_character bytes.now result }
{
    for (i, byte) in bytes.iter().enumerate() {
        if !is_name_byte(*byte) {
            return i;
        }
    }
    bytes.len()
}

fn file_length(bytes: &[u8]) -> usize
    ensures { IsLongest is_file_character bytes.now result }
{
    for (i, byte) in bytes.iter().enumerate() {
        if !is_file_byte(*byte) {
            return i;
        }
    }
    bytes.len()
}

/// The longest front that may begin a name, and the rest.
#[tactic(auto, using(crate::proofs::Runs::name_runs))]
pub fn split_name(bytes: &[u8]) -> (&[u8], &[u8])
    ensures { IsSplit begins_name bytes.now result.0.now result.1.now }
{
    if next_is_word_start(bytes) {
        bytes.split_at(name_length(bytes))
    } else {
        bytes.split_at(0)
    }
}

/// The longest front that may begin the name of a property, and the rest.
#[tactic(auto, using(crate::proofs::Runs::name_runs))]
pub fn split_property(bytes: &[u8]) -> (&[u8], &[u8])
    ensures { IsSplit begins_property bytes.now result.0.now result.1.now }
{
    if has_two_underscores(bytes) {
        bytes.split_at(1)
    } else {
        split_name(bytes)
    }
}

/// The longest front of characters of a file's name, and the rest.
#[tactic(auto, using(crate::proofs::Runs::name_runs))]
pub fn split_file(bytes: &[u8]) -> (&[u8], &[u8])
    ensures { IsSplit begins_file bytes.now result.0.now result.1.now }
{
    bytes.split_at(file_length(bytes))
}

/// A word of ASCII characters as a text.
pub fn text_of(alloc: Global, word: &[u8]) -> Result<Text, NoMemory>
    requires { list_all (λ c. nat_lt c 128) word.now ≡ true }
    ensures { IfOk result (λ t. t ≡ word.now) }
{
    match str::from_utf8(word) {
        Ok(text) => Ok(Text::from_str(alloc, text)?),
        Err(_) => unreachable!(),
    }
}

/// The front of a file's name, and `.js` behind it, as a text.
pub fn file_text(alloc: Global, front: &[u8]) -> Result<Text, NoMemory>
    requires { list_all is_file_character front.now ≡ true }
    ensures { IfOk result (λ t. t ≡ front.now ++ codes ".js") }
{
    match str::from_utf8(front) {
        Ok(front) => {
            let mut text = String::from_str(alloc, front)?;
            text.push_str(".js")?;
            Ok(Text::from_string(text)?)
        }
        Err(_) => unreachable!(),
    }
}
