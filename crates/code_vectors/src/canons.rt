// Canonical bytes of methods.
use crate::texts::{add, class_of};
use sj_canon::canon;
use sj_names::NameError;
use sj_trees::ClassDef;
use std::alloc::Global;

/// Adds for each method of the class of a file in turn the number of the first one, of all methods so far, that has the same canonical bytes.
pub(crate) fn add_answer(
    alloc: Global,
    file: &str,
    known: &mut Vec<Vec<u8>>,
    text: &mut String,
) -> Result<(), NameError> {
    let first = known.len();
    add_class(alloc, file, known)?;
    add_numbers(alloc, known, first, text)
}

// Adds the canonical bytes of the methods of the class of a file; none where it spells no class.
fn add_class(alloc: Global, file: &str, known: &mut Vec<Vec<u8>>) -> Result<(), NameError> {
    match class_of(alloc, file) {
        Some(class) => add_methods(alloc, &class, known),
        None => Ok(()),
    }
}

fn add_methods(alloc: Global, class: &ClassDef, known: &mut Vec<Vec<u8>>) -> Result<(), NameError> {
    for method in class.methods.as_slice() {
        known.push(canon(alloc, method)?)?;
    }
    Ok(())
}

// Adds the numbers of those from the first on.
fn add_numbers(
    alloc: Global,
    known: &[Vec<u8>],
    first: usize,
    text: &mut String,
) -> Result<(), NameError> {
    for method in known.iter().skip(first) {
        let line = format!(in alloc; "{}\n", number_of(known, method.as_slice()))?;
        add(&[line.as_str()], text)?;
    }
    Ok(())
}

// How many stand in front of the first that are these bytes.
fn number_of(known: &[Vec<u8>], bytes: &[u8]) -> usize {
    known
        .iter()
        .take_while(|other| other.as_slice() != bytes)
        .count()
}
