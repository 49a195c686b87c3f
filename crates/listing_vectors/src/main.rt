//! Reads listings in hexadecimal digits from the standard input, and writes what `parse_listing` answers to each: the file that
//! `write_class` gives for the class, if the class is printed as the same text again, or the place.
#![tactic(auto)]

use anyhow::Result;
use sj_text::{ListingError, parse_listing, print_listing};
use sj_text_files::each_listed_class_names_its_files;
use sj_text_spec::each_has_one_listing;
use sj_write::write_class;
use std::alloc::Global;

fn main(rt: HostRuntime) -> Result<()> {
    let alloc = rt.alloc();
    for line in rt.lines(alloc) {
        let line = line?;
        let text = hex::decode(alloc, line.as_str())?;
        let answer = answer(alloc, &text)?;
        println!(rt; "{answer}")?;
    }
    Ok(())
}

// What the parser answers to a text.
fn answer(alloc: Global, text: &[u8]) -> Result<String> {
    match parse_listing(alloc, text) {
        Ok(class) => {
            each_has_one_listing();
            each_listed_class_names_its_files();
            let file = write_class(alloc, &class)?;
            let again = print_listing(alloc, &class)?;
            made(alloc, &file, again.as_slice() == text)
        }
        Err(ListingError::BadListing(place)) => Ok(format!(in alloc; "bad {place}")?),
        Err(ListingError::NoMemory) => Ok(String::from_str(alloc, "no memory")?),
    }
}

fn made(alloc: Global, file: &[u8], is_same: bool) -> Result<String> {
    let digits = hex::encode(alloc, file)?;
    if is_same {
        Ok(format!(in alloc; "ok {digits}")?)
    } else {
        Ok(format!(in alloc; "printed otherwise {digits}")?)
    }
}
