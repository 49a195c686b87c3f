// What runs are made on, and what they are to put.
use anyhow::Result;
use sj_names::{Bytes, Text};
use sj_outside::{Contents, PutFile};
use std::alloc::Global;

/// The numbers of the calls that are to fail, where the first call has the number 1 and 0 is none.
#[derive(Clone, Copy)]
pub struct Failing {
    pub folders: u64,
    pub outputs: u64,
    pub lines: u64,
}

/// The words of a run, what is held, the calls that fail, and the files that are to be put.
#[derive(Drop)]
pub struct Case {
    pub name: String,
    pub words: Vec<String>,
    /// The folders that are open, of which the first holds all.
    pub open: Vec<Contents>,
    pub failing: Failing,
    pub puts: Vec<PutFile>,
}

impl Case {
    pub(crate) fn new(alloc: Global) -> Result<Case> {
        let mut open = Vec::new(alloc);
        open.push(Contents::new(alloc))?;
        Ok(Case {
            name: String::new(alloc),
            words: Vec::new(alloc),
            open,
            failing: Failing {
                folders: 0,
                outputs: 0,
                lines: 0,
            },
            puts: Vec::new(alloc),
        })
    }

    pub(crate) fn name_copy(&self, alloc: Global) -> Result<String> {
        Ok(String::from_str(alloc, self.name.as_str())?)
    }

    /// Adds a line of the case.
    pub(crate) fn add(&mut self, alloc: Global, kind: &str, fields: &str) -> Result<()> {
        match kind {
            "case" => self.set_name(alloc, fields),
            "folder" => Ok(self.open.push(Contents::new(alloc))?),
            "file" => self.add_file(alloc, fields),
            "end" => self.end_folder(alloc, fields),
            "word" => Ok(self.words.push(String::from_str(alloc, fields)?)?),
            "fail" => {
                self.set_failing(fields);
                Ok(())
            }
            "put" => self.add_put(alloc, fields),
            _ => Ok(()),
        }
    }

    fn set_name(&mut self, alloc: Global, name: &str) -> Result<()> {
        self.name = String::from_str(alloc, name)?;
        Ok(())
    }

    fn add_file(&mut self, alloc: Global, fields: &str) -> Result<()> {
        let Some((name, bytes)) = fields.split_once('\t') else {
            return Ok(());
        };
        let bytes = hex::decode(alloc, bytes)?;
        let Some(folder) = self.open.pop() else {
            return Ok(());
        };
        self.open.push(folder.with_file(alloc, name, &bytes)?)?;
        Ok(())
    }

    fn end_folder(&mut self, alloc: Global, name: &str) -> Result<()> {
        let Some(inner) = self.open.pop() else {
            return Ok(());
        };
        let Some(outer) = self.open.pop() else {
            return Ok(());
        };
        self.open.push(outer.with_folder(alloc, name, inner)?)?;
        Ok(())
    }

    fn set_failing(&mut self, fields: &str) {
        if let Some((calls, number)) = fields.split_once('\t') {
            let number = number_of(number);
            match calls {
                "folders" => self.failing.folders = number,
                "outputs" => self.failing.outputs = number,
                "lines" => self.failing.lines = number,
                _ => {}
            }
        }
    }

    fn add_put(&mut self, alloc: Global, fields: &str) -> Result<()> {
        if let Some((edit, file)) = fields.split_once('\t') {
            if let Some((name, bytes)) = file.split_once('\t') {
                let bytes = hex::decode(alloc, bytes)?;
                self.puts.push(PutFile {
                    out: Text::from_str(alloc, "out")?,
                    edit: edit_of(edit),
                    name: Text::from_str(alloc, name)?,
                    bytes: Bytes::from_vec(bytes),
                })?;
            }
        }
        Ok(())
    }
}

// The number that decimal digits spell, or 0.
fn number_of(digits: &str) -> u64 {
    match digits.parse::<u64>() {
        Ok(number) => number,
        Err(_) => 0,
    }
}

// The number of an edit.
fn edit_of(digits: &str) -> u32 {
    match digits.parse::<u32>() {
        Ok(number) => number,
        Err(_) => 0,
    }
}
