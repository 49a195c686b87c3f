// The first local rule that a class breaks.
use crate::texts::{add, class_of};
use sj_local::{LocalError, check_class};
use sj_names::NameError;
use sj_trees::ClassDef;
use std::alloc::Global;

/// Adds `ok`, or the number of the first rule that the class of the file breaks, the member and the tree.
pub(crate) fn add_answer(alloc: Global, file: &str, text: &mut String) -> Result<(), NameError> {
    match class_of(alloc, file) {
        Some(class) => add_check(alloc, &class, text),
        None => add(&["no class\n"], text),
    }
}

fn add_check(alloc: Global, class: &ClassDef, text: &mut String) -> Result<(), NameError> {
    match check_class(alloc, class) {
        Ok(()) => add(&["ok\n"], text),
        Err(LocalError::Broken { rule, place }) => {
            let number = rule.number();
            let line = format!(in alloc; "{number} {} {}\n", place.member, place.tree)?;
            add(&[line.as_str()], text)
        }
        Err(LocalError::NoMemory) => add(&["no memory\n"], text),
    }
}
