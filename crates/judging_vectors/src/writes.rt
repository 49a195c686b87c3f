// The files that classes are written as.
use crate::texts::add;
use sj_names::{Meter, NameError};
use sj_read::read_class;
use sj_write::write_class;
use std::alloc::Global;

/// Adds the bytes, in hexadecimal digits, of the file that the class of the file is written as.
pub(crate) fn add_answer(alloc: Global, file: &str, text: &mut String) -> Result<(), NameError> {
    match hex::decode(alloc, file) {
        Ok(file) => add_written(alloc, &file, text),
        Err(_) => Err(NameError::BadName),
    }
}

fn add_written(alloc: Global, file: &[u8], text: &mut String) -> Result<(), NameError> {
    match read_class(alloc, file, &mut Meter::new()) {
        Ok(class) => {
            let written = write_class(alloc, &class)?;
            add_digits(alloc, &written, text)
        }
        Err(_) => add(&["no class\n"], text),
    }
}

fn add_digits(alloc: Global, bytes: &[u8], text: &mut String) -> Result<(), NameError> {
    let digits = hex::encode(alloc, bytes)?;
    add(&[digits.as_str(), "\n"], text)
}
