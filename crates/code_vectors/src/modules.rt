// Modules of the emitted subset.
use crate::texts::{add, add_digits};
use js_print::print_module;
use js_read::{JsError, read_module};
use js_tree::each_has_one_text;
use sj_names::NameError;
use std::alloc::Global;

/// Adds `ok` and the printed text of the module that a text is, or `bad` and the place.
pub(crate) fn add_answer(alloc: Global, text: &str, out: &mut String) -> Result<(), NameError> {
    match hex::decode(alloc, text) {
        Ok(text) => add_module(alloc, &text, out),
        Err(_) => Err(NameError::BadName),
    }
}

fn add_module(alloc: Global, text: &[u8], out: &mut String) -> Result<(), NameError> {
    match read_module(alloc, text) {
        Ok(module) => {
            each_has_one_text();
            let printed = print_module(alloc, &module)?;
            add(&["ok\t"], out)?;
            add_digits(alloc, &printed, out)
        }
        Err(JsError::BadJs(place)) => {
            let line = format!(in alloc; "bad\t{place}\n")?;
            add(&[line.as_str()], out)
        }
        Err(JsError::NoMemory) => Err(NameError::NoMemory),
    }
}
