// What is written of a class so far: the entries of the tables, and the bytes behind them.
ghost use Rattle.std.specs.Prelude.{◌≡◌, ◌<◌, OnOk, IfOk, map, not};
ghost use Rattle.std.specs.List.{list_any, flat_map};
ghost use Rattle.sj_write_spec.specs.Fields.{HasFiles, number_field, name_field, method_field, string_field, mark, count, position_fields};
ghost use Rattle.sj_write_spec.specs.References.{names_in_method, names_in_reference, names_in_result, names_in_base};
ghost use Rattle.sj_write_spec.specs.Tables.{same_text, same_method, with_entry, index_of};
ghost use Rattle.sj_write.specs.Writing.{Writing, put, unwritten, knowing, entered, all_entered, with_files, with_methods, with_strings, with_bytes};

use crate::entries::StringEntry;
use crate::numbers::{append, append_count, append_long, append_number, append_short};
use indexmap::IndexSet;
use sj_names::{BaseRef, MethodName, NoMemory, Text, TypeRef};
use sj_trees::Position;
use sj_units::Units;
use std::alloc::Global;
use std::marker::Model;

/// The writer of one class: the entries that were used so far, each with its number, and the bytes of the class.
#[derive(Drop)]
pub struct ClassWriter {
    alloc: Global,
    files: IndexSet<Text>,
    names: IndexSet<Text>,
    methods: IndexSet<MethodName>,
    strings: IndexSet<StringEntry>,
    out: Vec<u8>,
}

/// The tables of a class and the bytes behind them.
#[derive(Drop)]
pub struct ClassParts {
    pub files: IndexSet<Text>,
    pub names: IndexSet<Text>,
    pub methods: IndexSet<MethodName>,
    pub strings: IndexSet<StringEntry>,
    pub out: Vec<u8>,
}

impl Model for ClassWriter {
    ghost use Rattle.sj_write.specs.Writing.{Writing};

    ghost Value = { Writing };

    ghost view = { λ w. record { tables = record { files = w.files.keys; names = w.names.keys; methods = w.methods.keys; strings = w.strings.keys }; text = w.out.items } };
}

impl ClassWriter {
    // A writer that has written nothing.
    pub fn new(alloc: Global) -> ClassWriter
        ensures { result ≡ unwritten }
    {
        ClassWriter {
            alloc,
            files: IndexSet::new(alloc),
            names: IndexSet::new(alloc),
            methods: IndexSet::new(alloc),
            strings: IndexSet::new(alloc),
            out: Vec::new(alloc),
        }
    }

    // A writer that has written nothing and knows these names.
    pub fn knowing(alloc: Global, names: IndexSet<Text>) -> ClassWriter
        ensures { result ≡ knowing names.keys }
    {
        ClassWriter {
            alloc,
            files: IndexSet::new(alloc),
            names,
            methods: IndexSet::new(alloc),
            strings: IndexSet::new(alloc),
            out: Vec::new(alloc),
        }
    }

    // What is written, in its parts.
    pub fn into_parts(self) -> ClassParts
        ensures { self ≡ record { tables = record { files = result.files.keys; names = result.names.keys; methods = result.methods.keys; strings = result.strings.keys }; text = result.out.items } }
    {
        ClassParts {
            files: self.files,
            names: self.names,
            methods: self.methods,
            strings: self.strings,
            out: self.out,
        }
    }

    // The bytes that are written.
    pub fn text(&self) -> &[u8]
        ensures { result.now ≡ self.now.text }
    {
        self.out.as_slice()
    }

    pub fn bytes(&mut self, bytes: &[u8]) -> Result<(), NoMemory>
        ensures { OnOk result (self.new ≡ with_bytes bytes.now self.old) }
    {
        append(&mut self.out, bytes)
    }

    pub fn byte(&mut self, byte: u8) -> Result<(), NoMemory>
        ensures { OnOk result (self.new ≡ put (number_field 1 byte) self.old) }
    {
        self.out.push(byte)?;
        Ok(())
    }

    pub fn mark(&mut self, is_set: bool) -> Result<(), NoMemory>
        ensures { OnOk result (self.new ≡ put (mark is_set) self.old) }
    {
        if is_set { self.byte(1) } else { self.byte(0) }
    }

    pub fn short(&mut self, number: u16) -> Result<(), NoMemory>
        ensures { OnOk result (self.new ≡ put (number_field 2 number) self.old) }
    {
        append_short(&mut self.out, number)
    }

    pub fn number(&mut self, number: u32) -> Result<(), NoMemory>
        ensures { OnOk result (self.new ≡ put (number_field 4 number) self.old) }
    {
        append_number(&mut self.out, number)
    }

    pub fn long(&mut self, number: u64) -> Result<(), NoMemory>
        ensures { OnOk result (self.new ≡ put (number_field 8 number) self.old) }
    {
        append_long(&mut self.out, number)
    }

    // How many there are, or which one it is.
    pub fn count(&mut self, number: usize) -> Result<(), NoMemory>
        ensures { OnOk result (self.new ≡ put (count number) self.old) }
    {
        append_count(&mut self.out, number)
    }

    // A name, by its index in the table of names.
    pub fn name(&mut self, name: &str) -> Result<(), NoMemory>
        ensures { OnOk result (self.new ≡ put (name_field name.now) self.old) }
    {
        let index = self.entered_name(name)?;
        self.count(index)
    }

    // Enters a name, and gives its index.
    fn entered_name(&mut self, name: &str) -> Result<usize, NoMemory>
        ensures index { IfOk result (λ n. n ≡ index_of same_text self.old.tables.names name.now) }
        ensures entered { OnOk result (self.new ≡ entered name.now self.old) }
    {
        let entry = Text::from_str(self.alloc, name)?;
        let (index, _) = self.names.insert_full(entry)?;
        Ok(index)
    }

    // A position: the index of its source file, the line and the column.
    pub fn position(&mut self, files: &[Text], position: Position) -> Result<(), NoMemory>
        requires { HasFiles (position_fields files.now position) }
        ensures { OnOk result (self.new ≡ put (position_fields files.now position) self.old) }
    {
        let index = self.entered_file(&files[position.file as usize])?;
        self.count(index)?;
        self.number(position.line)?;
        self.number(position.column)
    }

    fn entered_file(&mut self, file: &Text) -> Result<usize, NoMemory>
        ensures index { IfOk result (λ n. n ≡ index_of same_text self.old.tables.files file.now) }
        ensures entered { OnOk result (self.new ≡ with_files (with_entry same_text self.old.tables.files file.now) self.old) }
    {
        let (index, _) = self.files.insert_full(file.copied()?)?;
        Ok(index)
    }

    // A string, by its index in the table of strings.
    pub fn string(&mut self, string: &Units) -> Result<(), NoMemory>
        ensures { OnOk result (self.new ≡ put (string_field string.now) self.old) }
    {
        let index = self.entered_string(string)?;
        self.count(index)
    }

    fn entered_string(&mut self, string: &Units) -> Result<usize, NoMemory>
        ensures index { IfOk result (λ n. n ≡ index_of same_text self.old.tables.strings string.now) }
        ensures entered { OnOk result (self.new ≡ with_strings (with_entry same_text self.old.tables.strings string.now) self.old) }
    {
        let entry = StringEntry::new(string.copied()?);
        let (index, _) = self.strings.insert_full(entry)?;
        Ok(index)
    }

    // The name of a method, by its index in the table of method names. Where it is new its own names are entered.
    pub fn method(&mut self, method: &MethodName) -> Result<(), NoMemory>
        ensures { OnOk result (self.new ≡ put (method_field method.now) self.old) }
    {
        let (index, is_new) = self.entered_method(method)?;
        if is_new {
            self.enter_names(method)?;
        }
        self.count(index)
    }

    // Enters the name of a method, and gives its index with whether it is new.
    fn entered_method(&mut self, method: &MethodName) -> Result<(usize, bool), NoMemory>
        ensures index { IfOk result (λ r. r.0 ≡ index_of same_method self.old.tables.methods method.now) }
        ensures is_new { IfOk result (λ r. r.1 ≡ not (list_any (same_method method.now) self.old.tables.methods)) }
        ensures entered { OnOk result (self.new ≡ with_methods (with_entry same_method self.old.tables.methods method.now) self.old) }
    {
        let entry = method.copied()?;
        Ok(self.methods.insert_full(entry)?)
    }

    // Enters the names in the name of a method.
    #[tactic(auto, using(std::proofs::lemmas::Grind::common_steps, crate::proofs::Steps::entering))]
    fn enter_names(&mut self, method: &MethodName) -> Result<(), NoMemory>
        ensures { OnOk result (self.new ≡ all_entered (names_in_method method.now) self.old) }
    {
        self.entered_name(method.simple.text())?;
        self.enter_parameters(method.params.as_slice())?;
        self.enter_outcome(&method.result)
    }

    fn enter_outcome(&mut self, outcome: &Option<TypeRef>) -> Result<(), NoMemory>
        ensures { OnOk result (self.new ≡ all_entered (names_in_result outcome.now) self.old) }
    {
        match outcome {
            Some(reference) => self.enter_reference(reference),
            None => Ok(()),
        }
    }

    #[tactic(auto, using(std::proofs::lemmas::Grind::common_steps, crate::proofs::Steps::entering))]
    fn enter_parameters(&mut self, parameters: &[TypeRef]) -> Result<(), NoMemory>
        ensures { OnOk result (self.new ≡ all_entered (flat_map names_in_reference parameters.now) self.old) }
    {
        for each in parameters {
            self.enter_reference(each)?;
        }
        Ok(())
    }

    fn enter_reference(&mut self, reference: &TypeRef) -> Result<(), NoMemory>
        ensures { OnOk result (self.new ≡ all_entered (names_in_reference reference.now) self.old) }
    {
        match reference {
            TypeRef::Class(name) => self.enter_name(name.text()),
            TypeRef::Array(array) => self.enter_base(&array.base),
            _ => Ok(()),
        }
    }

    fn enter_base(&mut self, base: &BaseRef) -> Result<(), NoMemory>
        ensures { OnOk result (self.new ≡ all_entered (names_in_base base.now) self.old) }
    {
        match base {
            BaseRef::Class(name) => self.enter_name(name.text()),
            _ => Ok(()),
        }
    }

    fn enter_name(&mut self, name: &str) -> Result<(), NoMemory>
        ensures { OnOk result (self.new ≡ entered name.now self.old) }
    {
        self.entered_name(name)?;
        Ok(())
    }
}
