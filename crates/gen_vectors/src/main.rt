//! Reads from each line of the input `bytes` or `listings`, a number of classes and 0 or 1, and writes the paths and the bytes, in
//! hexadecimal digits, or the listings, of the files of the generated folder, edited or not.
#![tactic(auto)]

ghost use Rattle.std.specs.Prelude.{◌≤◌, IfSome};

use anyhow::Result;
use sj_gen::folder;
use sj_names::{Meter, NoMemory, SourceFile};
use sj_read::read_class;
use sj_text_files::each_class_of_a_file_has_a_listing;
use sj_text_print::print_listing;
use sj_trees::ReadRefusal;
use std::alloc::Global;
use std::{result, str};

fn main(rt: HostRuntime) -> Result<()> {
    let alloc = rt.alloc();
    for line in rt.lines(alloc) {
        let line = line?;
        let Some(asked) = read_line(line.as_str()) else {
            println!(rt; "no folder")?;
            continue;
        };
        let folder = folder(alloc, asked.number, asked.edited)?;
        for file in folder.files.as_slice() {
            println!(rt; "{} {}", file.path, shown(alloc, file, asked.listed)?)?;
        }
    }
    Ok(())
}

/// A generated folder, and whether its files are listed.
#[derive(Clone, Copy)]
struct Asked {
    listed: bool,
    number: u32,
    edited: bool,
}

// The folder of a line, of 1 to 20,000 classes.
fn read_line(line: &str) -> Option<Asked>
    ensures { IfSome result (λ asked. (1 ≤ asked.number) × (asked.number ≤ 20000)) }
{
    let (form, folder) = line.split_once(' ')?;
    let (number, edited) = folder.split_once(' ')?;
    match number.parse::<u32>() {
        Ok(number) if 1 <= number && number <= 20_000 => Some(Asked {
            listed: form == "listings",
            number,
            edited: edited == "1",
        }),
        _ => None,
    }
}

fn shown(alloc: Global, file: &SourceFile, listed: bool) -> result::Result<String, NoMemory> {
    if listed {
        listing(alloc, file.bytes.as_slice())
    } else {
        Ok(hex::encode(alloc, file.bytes.as_slice())?)
    }
}

// The listing of the class that the bytes are the file of.
fn listing(alloc: Global, file: &[u8]) -> result::Result<String, NoMemory> {
    each_class_of_a_file_has_a_listing();
    match read_class(alloc, file, &mut Meter::new()) {
        Ok(class) => {
            let listing = print_listing(alloc, &class)?;
            let text = str::from_utf8(listing.as_slice()).unwrap_or("no text");
            Ok(String::from_str(alloc, text)?)
        }
        Err(ReadRefusal::Bad { .. }) => Ok(String::from_str(alloc, "no class")?),
        Err(ReadRefusal::NoMemory) => Err(NoMemory),
    }
}
