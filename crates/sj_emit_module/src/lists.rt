// Lists under files.
ghost use Rattle.std.specs.Prelude.{◌≡◌, ◌++◌, ◌∷◌, [], OnOk, if◌then◌else◌};
ghost use Rattle.sj_emit_module.specs.Lists.{items_at};
ghost use Rattle.sj_split.specs.Orders.{Bytes, is_same};

use indexmap::IndexMap;
use sj_names::{NoMemory, Text};
use std::alloc::Global;

/// A list of things under each file; where nothing was put, it is empty.
#[derive(Drop)]
pub struct FileLists<T> {
    lists: IndexMap<Text, Vec<T>>,
}

impl<T: Drop> FileLists<T> {
    /// Empty lists.
    pub fn new(alloc: Global) -> FileLists<T>
        ensures { (f : Bytes) → items_at result f ≡ [] }
    {
        FileLists {
            lists: IndexMap::new(alloc),
        }
    }

    /// The things under a file, in the order in which they were put.
    pub fn at(&self, file: &Text) -> &[T]
        ensures { result.now ≡ items_at self.now file.now }
    {
        match self.lists.get(file) {
            Some(list) => list.as_slice(),
            None => &[],
        }
    }

    /// Puts a thing behind those under a file. `NoMemory` alone is an error.
    pub fn put(&mut self, alloc: Global, file: &Text, thing: T) -> Result<(), NoMemory>
        ensures { OnOk result ((f : Bytes) → items_at self.new f ≡ (if is_same file.now f then items_at self.old f ++ thing ∷ [] else items_at self.old f)) }
    {
        if let Some(list) = self.lists.get_mut(file) {
            list.push(thing)?;
            return Ok(());
        }
        let mut list = Vec::new(alloc);
        list.push(thing)?;
        self.lists.insert(file.copied()?, list)?;
        Ok(())
    }
}
