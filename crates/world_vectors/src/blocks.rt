// The blocks of the input.
use crate::worlds::made_lines;
use anyhow::Result;
use sj_names::Meter;
use sj_read::read_class;
use sj_trees::ClassDef;
use std::alloc::Global;

/// The classes and the entries of a world, and the lines of its pieces as they are recorded.
#[derive(Drop)]
pub struct Block {
    classes: Vec<ClassDef>,
    entries: Vec<u8>,
    recorded: Vec<String>,
}

impl Block {
    pub(crate) fn new(alloc: Global) -> Block {
        Block {
            classes: Vec::new(alloc),
            entries: Vec::new(alloc),
            recorded: Vec::new(alloc),
        }
    }

    /// Adds a line of the block.
    pub(crate) fn add(&mut self, alloc: Global, kind: &str, fields: &str) -> Result<()> {
        match kind {
            "class" => add_class(alloc, fields, &mut self.classes),
            "entries" => {
                self.entries = hex::decode(alloc, fields)?;
                Ok(())
            }
            "piece" | "function" | "helper" => keep(alloc, fields, &mut self.recorded),
            _ => Ok(()),
        }
    }

    /// What is to be told of the block of this number: how many of its pieces are as recorded, and the first that isn't. Nothing is told of the lines in
    /// front of the first block, which are number 0.
    pub(crate) fn told(self, alloc: Global, number: u64) -> Result<String> {
        if number == 0 {
            return Ok(String::new(alloc));
        }
        let Block {
            classes,
            entries,
            recorded,
        } = self;
        match made_lines(alloc, classes, &entries)? {
            Some(made) => compared(alloc, number, &recorded, &made),
            None => Ok(format!(in alloc; "{number}: not compared\n")?),
        }
    }
}

fn keep(alloc: Global, line: &str, lines: &mut Vec<String>) -> Result<()> {
    lines.push(String::from_str(alloc, line)?)?;
    Ok(())
}

fn add_class(alloc: Global, file: &str, classes: &mut Vec<ClassDef>) -> Result<()> {
    let bytes = hex::decode(alloc, file)?;
    classes.push(read_class(alloc, &bytes, &mut Meter::new())?)?;
    Ok(())
}

fn compared(alloc: Global, number: u64, recorded: &[String], made: &[String]) -> Result<String> {
    let count = recorded.len().max(made.len());
    let agree = recorded
        .iter()
        .zip(made)
        .filter(|pair| pair.0 == pair.1)
        .count();
    let mut text = format!(in alloc; "{number}: {agree} of {count} pieces agree\n")?;
    if agree < count {
        let place = place_of_difference(recorded, made);
        tell(recorded, place, "recorded ", &mut text)?;
        tell(made, place, "made ", &mut text)?;
    }
    Ok(text)
}

// How many lines agree in front of the first that doesn't.
fn place_of_difference(recorded: &[String], made: &[String]) -> usize {
    recorded
        .iter()
        .zip(made)
        .take_while(|pair| pair.0 == pair.1)
        .count()
}

fn tell(lines: &[String], place: usize, word: &str, text: &mut String) -> Result<()> {
    if let Some(line) = lines.get(place) {
        text.push_str(word)?;
        text.push_str(line.as_str())?;
        text.push('\n')?;
    }
    Ok(())
}
