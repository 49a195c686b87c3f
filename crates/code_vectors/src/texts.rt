// The texts of answers.
use sj_names::{Meter, NameError};
use sj_read::read_class;
use sj_trees::ClassDef;
use std::alloc::Global;

/// The class of a file in hexadecimal digits.
pub(crate) fn class_of(alloc: Global, file: &str) -> Option<ClassDef> {
    let bytes = hex::decode(alloc, file).ok()?;
    read_class(alloc, &bytes, &mut Meter::new()).ok()
}

/// Adds the words.
pub(crate) fn add(words: &[&str], text: &mut String) -> Result<(), NameError> {
    for word in words {
        text.push_str(word)?;
    }
    Ok(())
}

/// Adds the bytes in hexadecimal digits, and ends the line.
pub(crate) fn add_digits(alloc: Global, bytes: &[u8], text: &mut String) -> Result<(), NameError> {
    let digits = hex::encode(alloc, bytes)?;
    add(&[digits.as_str(), "\n"], text)
}
