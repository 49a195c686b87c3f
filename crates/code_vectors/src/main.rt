//! Answers questions on the making of code, each of which is to have the answer of an independent reference. The input is lines, with tabs between the
//! fields. `words WORD..` asks what a command line says in three grammars, `module TEXT` whether a text is a module, `emit FILE` for the functions of the
//! methods of a class, and `canon FILE` for each method of a class which is the first, of all methods so far, that has the same canonical bytes. `graph` or
//! `pieces` begins a block with the pieces, the graph and the entries of a program, of which `graphed pieces` asks for the graph of the pieces, and `style
//! STYLE` for the plan of its modules. An answer stands in the lines below its question, or in its place.
#![tactic(auto)]

mod canons;
mod emits;
mod forms;
mod modules;
mod plans;
mod texts;
mod words;

use anyhow::Result;
use plans::Block;
use sj_names::NameError;
use sj_words::earlier_commands_stay;
use std::alloc::Global;
use std::result;

// What is known from earlier lines: the block, and the canonical bytes of the methods.
struct Known {
    block: Block,
    methods: Vec<Vec<u8>>,
}

impl Drop for Known {
    fn drop(self) {
        let Known {
            block: _block,
            methods: _methods,
        } = self;
    }
}

fn main(rt: HostRuntime) -> Result<()> {
    let alloc = rt.alloc();
    earlier_commands_stay();
    let mut known = Known {
        block: Block::new(alloc),
        methods: Vec::new(alloc),
    };
    for line in rt.lines(alloc) {
        let line = line?;
        print!(rt; "{}", answer(alloc, line.as_str(), &mut known)?)?;
    }
    Ok(())
}

// What is written for a line.
fn answer(alloc: Global, line: &str, known: &mut Known) -> result::Result<String, NameError> {
    let mut text = String::new(alloc);
    add_answer(alloc, line, known, &mut text)?;
    Ok(text)
}

fn add_answer(
    alloc: Global,
    line: &str,
    known: &mut Known,
    text: &mut String,
) -> result::Result<(), NameError> {
    match line.split_once('\t') {
        None => {
            known.block = Block::new(alloc);
            Ok(())
        }
        Some(("words", words)) => words::add_answer(alloc, words, text),
        Some(("module", module)) => modules::add_answer(alloc, module, text),
        Some(("emit", file)) => emits::add_answer(alloc, file, text),
        Some(("canon", file)) => canons::add_answer(alloc, file, &mut known.methods, text),
        Some((kind, fields)) => known.block.add_answer(alloc, kind, fields, text),
    }
}
