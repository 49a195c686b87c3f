//! Answers questions on classes and worlds, each of which is to have the answer of an independent reference. The input is lines, with tabs between
//! the fields. `read FILE` asks what the reader answers to a file, `write FILE` for the file that its class is written as, `local FILE` for the first local
//! rule that the class breaks, `infos FILE` for what its bodies ask for, and `sizes GROUP..` for the first file of a folder that is too large. `world` begins a block, in
//! which `class FILE` is a class of the world that the rest is asked of: `sub TYPE TYPE`, `ancestors NAME`, `resolve NAME METHOD`, `proxy NAME METHOD`,
//! `refused why`, `check MEMBER`, `entries BYTES` for what is reachable, and `resolves BYTES` for whether anything is. `case NAME` begins
//! a block with `file PATH BYTES` for each file of a folder in the order of the paths, and `judge BYTES` asks for the verdict on it. An answer stands behind its
//! question, and where it is a list in the lines below.
#![tactic(auto)]

mod blocks;
mod infos;
mod local;
mod reachable;
mod reads;
mod sizes;
mod texts;
mod type_checks;
mod types;
mod verdicts;
mod worlds;
mod writes;

use anyhow::Result;
use blocks::Block;
use sj_names::NameError;
use std::alloc::Global;
use std::result;

fn main(rt: HostRuntime) -> Result<()> {
    let alloc = rt.alloc();
    let mut block = Block::new(alloc);
    for line in rt.lines(alloc) {
        let line = line?;
        print!(rt; "{}", answer(alloc, line.as_str(), &mut block)?)?;
    }
    Ok(())
}

// What is written for a line.
fn answer(alloc: Global, line: &str, block: &mut Block) -> result::Result<String, NameError> {
    let mut text = String::new(alloc);
    add_answer(alloc, line, block, &mut text)?;
    Ok(text)
}

fn add_answer(
    alloc: Global,
    line: &str,
    block: &mut Block,
    text: &mut String,
) -> result::Result<(), NameError> {
    match line.split_once('\t') {
        None | Some(("case", _)) => {
            *block = Block::new(alloc);
            Ok(())
        }
        Some(("class", file)) => block.add(alloc, file),
        Some(("local", file)) => local::add_answer(alloc, file, text),
        Some(("read", file)) => reads::add_answer(alloc, file, text),
        Some(("write", file)) => writes::add_answer(alloc, file, text),
        Some(("sizes", groups)) => sizes::add_answer(alloc, groups, text),
        Some(("infos", file)) => infos::add_answer(alloc, file, text),
        Some(("file", fields)) => block.add_file(alloc, fields),
        Some(("judge", entries)) => block.add_verdict(alloc, entries, text),
        Some((kind, query)) => block.add_answer(alloc, kind, query, text),
    }
}
