// The tables of a file.
ghost use Rattle.std.specs.Prelude.{◌≡◌, length};

use crate::names::NameEntry;
use sj_names::{MethodName, Shared, Text};
use sj_units::Units;
use std::marker::Model;

/// The four tables in front of the class.
#[derive(Drop)]
pub struct FileTables {
    files: Shared<Text>,
    names: Vec<NameEntry>,
    methods: Vec<MethodName>,
    strings: Vec<Units>,
}

impl Model for FileTables {
    ghost use Rattle.sj_read_spec.specs.Tables.{Tables};

    ghost Value = { Tables };

    ghost view = { λ t. record { files = t.files; names = t.names.items; methods = t.methods.items; strings = t.strings.items } };
}

impl FileTables {
    /// These four tables.
    pub fn new(
        files: Shared<Text>,
        names: Vec<NameEntry>,
        methods: Vec<MethodName>,
        strings: Vec<Units>,
    ) -> FileTables
        ensures { result ≡ record { files = files; names = names.items; methods = methods.items; strings = strings.items } }
    {
        FileTables {
            files,
            names,
            methods,
            strings,
        }
    }

    /// How many source files there are.
    pub fn file_count(&self) -> usize
        ensures { result ≡ length self.now.files }
    {
        self.files.as_slice().len()
    }

    /// The names.
    pub fn names(&self) -> &[NameEntry]
        ensures { result.now ≡ self.now.names }
    {
        self.names.as_slice()
    }

    /// The names of methods.
    pub fn methods(&self) -> &[MethodName]
        ensures { result.now ≡ self.now.methods }
    {
        self.methods.as_slice()
    }

    /// The strings.
    pub fn strings(&self) -> &[Units]
        ensures { result.now ≡ self.now.strings }
    {
        self.strings.as_slice()
    }

    /// The source files, with the tables given up.
    pub fn into_files(self) -> Shared<Text>
        ensures { result ≡ self.files }
    {
        self.files
    }
}
