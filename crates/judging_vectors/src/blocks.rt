// The blocks of the input.
use crate::texts::{add, class_of};
use crate::{reachable, type_checks, verdicts, worlds};
use sj_names::{Bytes, NameError, SourceFile, Text};
use sj_trees::ClassDef;
use sj_world::{LinkedWorld, WorldError};
use std::alloc::Global;
use std::mem;

/// The files of a block, its classes, and the world of them once it is asked for.
pub struct Block {
    files: Vec<SourceFile>,
    classes: Vec<ClassDef>,
    world: Option<Result<LinkedWorld, WorldError>>,
}

impl Drop for Block {
    fn drop(self) {
        let Block {
            files: _files,
            classes: _classes,
            world: _world,
        } = self;
    }
}

impl Block {
    pub(crate) fn new(alloc: Global) -> Block {
        Block {
            files: Vec::new(alloc),
            classes: Vec::new(alloc),
            world: None,
        }
    }

    /// Adds the class of a file; nothing where it spells none.
    pub(crate) fn add(&mut self, alloc: Global, file: &str) -> Result<(), NameError> {
        if let Some(class) = class_of(alloc, file) {
            self.classes.push(class)?;
        }
        Ok(())
    }

    /// Adds a file: its path, and behind a tab its bytes in hexadecimal digits.
    pub(crate) fn add_file(&mut self, alloc: Global, fields: &str) -> Result<(), NameError> {
        let (path, digits) = fields.split_once('\t').ok_or(NameError::BadName)?;
        let path = Text::from_str(alloc, path)?;
        match hex::decode(alloc, digits) {
            Ok(bytes) => self.push_file(path, Bytes::from_vec(bytes)),
            Err(_) => Err(NameError::BadName),
        }
    }

    fn push_file(&mut self, path: Text, bytes: Bytes) -> Result<(), NameError> {
        self.files.push(SourceFile { path, bytes })?;
        Ok(())
    }

    /// Adds the verdict on the files.
    pub(crate) fn add_verdict(
        &self,
        alloc: Global,
        entries: &str,
        text: &mut String,
    ) -> Result<(), NameError> {
        add(&["judge\t", entries, "\t"], text)?;
        verdicts::add_answer(alloc, &self.files, entries, text)
    }

    /// Adds a question and its answer.
    pub(crate) fn add_answer<'t>(
        &mut self,
        alloc: Global,
        kind: &'t str,
        query: &'t str,
        text: &mut String,
    ) -> Result<(), NameError> {
        self.join(alloc);
        add(&[kind, "\t", query, "\t"], text)?;
        match &self.world {
            Some(Ok(world)) => add_answer_in(alloc, world, kind, query, text),
            Some(Err(error)) => add_why(error, text),
            None => Ok(()),
        }
    }

    // Makes the world of the classes, if it isn't made.
    fn join(&mut self, alloc: Global) {
        if self.world.is_none() {
            let classes = mem::replace(&mut self.classes, Vec::new(alloc));
            self.world = Some(LinkedWorld::new(alloc, classes, Vec::new(alloc), Vec::new(alloc)));
        }
    }
}

fn add_answer_in(
    alloc: Global,
    world: &LinkedWorld,
    kind: &str,
    query: &str,
    text: &mut String,
) -> Result<(), NameError> {
    match kind {
        "check" => type_checks::add_answer(alloc, world, query, text),
        "entries" => reachable::add_answer(alloc, world.world(), query, text),
        "resolves" => reachable::add_whether_any(alloc, world.world(), query, text),
        _ => worlds::add_answer(alloc, world.world(), kind, query, text),
    }
}

fn add_why(error: &WorldError, text: &mut String) -> Result<(), NameError> {
    match error {
        WorldError::DuplicateClass(name) => add(&["duplicate\t", name.text(), "\n"], text),
        WorldError::Cycle(name) => add(&["cycle\t", name.text(), "\n"], text),
        _ => add(&["no memory\n"], text),
    }
}
