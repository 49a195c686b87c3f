// Names, grouped by the files that declare them.
ghost use Rattle.std.specs.Prelude.{◌≡◌, [], IfOk, OnOk, if◌then◌else◌};
ghost use Rattle.indexmap.specs.IndexSet.{insert_key};
ghost use Rattle.js_tree.specs.Terms.{Name};
ghost use Rattle.sj_emit_module_spec.specs.Order.{each_once_in_order};
ghost use Rattle.sj_emit_module.specs.Groups.{names_at};
ghost use Rattle.sj_split.specs.Orders.{Bytes, is_same};

use crate::orders::in_order;
use indexmap::{IndexMap, IndexSet};
use sj_names::{NoMemory, Text};
use std::alloc::Global;

/// Names under files.
#[derive(Drop)]
pub struct NameGroups {
    files: IndexSet<Text>,
    names: IndexMap<Text, IndexSet<Text>>,
}

impl NameGroups {
    /// No name under any file.
    pub fn new(alloc: Global) -> NameGroups
        ensures files { result.files.keys ≡ [] }
        ensures names { (f : Bytes) → names_at result f ≡ [] }
    {
        NameGroups {
            files: IndexSet::new(alloc),
            names: IndexMap::new(alloc),
        }
    }

    /// Puts a name under a file, unless it stands there.
    pub fn put(&mut self, alloc: Global, file: &Text, name: &Text) -> Result<(), NoMemory>
        ensures files { OnOk result (self.new.files.keys ≡ insert_key is_same self.old.files.keys file.now) }
        ensures names { OnOk result ((f : Bytes) → names_at self.new f ≡ (if is_same file.now f then insert_key is_same (names_at self.old f) name.now else names_at self.old f)) }
    {
        self.files.insert(file.copied()?)?;
        self.put_name(alloc, file, name)
    }

    fn put_name(&mut self, alloc: Global, file: &Text, name: &Text) -> Result<(), NoMemory>
        ensures files { OnOk result (self.new.files.keys ≡ self.old.files.keys) }
        ensures names { OnOk result ((f : Bytes) → names_at self.new f ≡ (if is_same file.now f then insert_key is_same (names_at self.old f) name.now else names_at self.old f)) }
    {
        if let Some(names) = self.names.get_mut(file) {
            names.insert(name.copied()?)?;
            return Ok(());
        }
        let mut names = IndexSet::new(alloc);
        names.insert(name.copied()?)?;
        self.names.insert(file.copied()?, names)?;
        Ok(())
    }

    /// The files in byte order.
    pub fn files(&self, alloc: Global) -> Result<Vec<Text>, NoMemory>
        ensures { IfOk result (λ files. files.items ≡ each_once_in_order self.now.files.keys) }
    {
        in_order(alloc, &self.files)
    }

    /// The names under a file in byte order.
    pub fn names(&self, alloc: Global, file: &Text) -> Result<Vec<Text>, NoMemory>
        ensures { IfOk result (λ names. names.items ≡ each_once_in_order (names_at self.now file.now)) }
    {
        match self.names.get(file) {
            Some(names) => in_order(alloc, names),
            None => Ok(Vec::new(alloc)),
        }
    }
}
