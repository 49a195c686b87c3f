// What the reader answers to a file.
use crate::texts::add;
use sj_names::{Meter, NameError};
use sj_read::read_class;
use sj_text_files::each_class_of_a_file_has_a_listing;
use sj_text_print::print_listing;
use sj_trees::{Code, ReadRefusal};
use std::alloc::Global;
use std::str;

/// Adds `ok` and the listing of the class of the file; or `bad`, the number of the code, the place, and the form that isn't supported.
pub(crate) fn add_answer(alloc: Global, file: &str, text: &mut String) -> Result<(), NameError> {
    match hex::decode(alloc, file) {
        Ok(file) => add_read(alloc, &file, text),
        Err(_) => Err(NameError::BadName),
    }
}

fn add_read(alloc: Global, file: &[u8], text: &mut String) -> Result<(), NameError> {
    each_class_of_a_file_has_a_listing();
    match read_class(alloc, file, &mut Meter::new()) {
        Ok(class) => {
            let listing = print_listing(alloc, &class)?;
            add_listing(listing.as_slice(), text)
        }
        Err(ReadRefusal::Bad { code, place }) => add_fault(alloc, code, place, text),
        Err(ReadRefusal::NoMemory) => Err(NameError::NoMemory),
    }
}

fn add_listing(listing: &[u8], text: &mut String) -> Result<(), NameError> {
    let listing = str::from_utf8(listing).unwrap_or("no text");
    add(&["ok ", listing, "\n"], text)
}

fn add_fault(alloc: Global, code: Code, place: u64, text: &mut String) -> Result<(), NameError> {
    let number = code.number();
    let form = match code.form() {
        Some(form) => form.name(),
        None => "-",
    };
    let line = format!(in alloc; "bad {number} {place} {form}\n")?;
    add(&[line.as_str()], text)
}
