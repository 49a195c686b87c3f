// The blocks of the input.
use crate::answers::answered;
use anyhow::Result;
use sj_names::Meter;
use sj_read::read_class;
use sj_trees::ClassDef;
use std::alloc::Global;

/// The classes and the entries of a block, and what is wanted of them.
#[derive(Drop)]
pub struct Block {
    classes: Vec<ClassDef>,
    entries: Vec<u8>,
    owners: Vec<String>,
    wanted: Vec<String>,
}

impl Block {
    pub(crate) fn new(alloc: Global) -> Block {
        Block {
            classes: Vec::new(alloc),
            entries: Vec::new(alloc),
            owners: Vec::new(alloc),
            wanted: Vec::new(alloc),
        }
    }

    /// Adds a line of the block.
    pub(crate) fn add(
        &mut self,
        alloc: Global,
        kind: &str,
        fields: &str,
        line: &str,
    ) -> Result<()> {
        match kind {
            "class" => add_class(alloc, fields, &mut self.classes),
            "entries" => {
                self.entries = hex::decode(alloc, fields)?;
                Ok(())
            }
            "of" => keep(alloc, fields, &mut self.owners),
            "piece" => keep(alloc, line, &mut self.wanted),
            "helper" => keep(alloc, line, &mut self.wanted),
            _ => Ok(()),
        }
    }

    /// What is wanted, and what is answered.
    pub(crate) fn compared(self, alloc: Global) -> Result<(Vec<String>, Vec<String>)> {
        let Block {
            classes,
            entries,
            owners,
            wanted,
        } = self;
        let answered = answered(alloc, classes, &entries, &owners, &wanted)?;
        Ok((wanted, answered))
    }
}

fn keep(alloc: Global, line: &str, lines: &mut Vec<String>) -> Result<()> {
    lines.push(String::from_str(alloc, line)?)?;
    Ok(())
}

fn add_class(alloc: Global, file: &str, classes: &mut Vec<ClassDef>) -> Result<()> {
    let bytes = hex::decode(alloc, file)?;
    if let Ok(class) = read_class(alloc, &bytes, &mut Meter::new()) {
        classes.push(class)?;
    }
    Ok(())
}
