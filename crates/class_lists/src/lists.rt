// Lists under names.
ghost use Rattle.std.specs.Prelude.{◌≡◌, ◌++◌, ◌∷◌, [], OnOk, List, ℕ, if◌then◌else◌};
ghost use Rattle.sj_names.specs.WellKnown.{is_same_text};
ghost use Rattle.class_lists.specs.Lists.{items_at};

use indexmap::IndexMap;
use sj_names::{ClassName, NoMemory};
use std::alloc::Global;

/// A list of items under each name of a class; where nothing was put, it is empty.
#[derive(Drop)]
pub struct Lists<T> {
    lists: IndexMap<ClassName, Vec<T>>,
}

impl<T: Drop> Lists<T> {
    /// Empty lists.
    pub fn new(alloc: Global) -> Lists<T>
        ensures { (name : List ℕ) → items_at result name ≡ [] }
    {
        Lists {
            lists: IndexMap::new(alloc),
        }
    }

    /// The items under a name, in the order in which they were put.
    pub fn at(&self, name: &ClassName) -> &[T]
        ensures { result.now ≡ items_at self.now name.now }
    {
        match self.lists.get(name) {
            Some(list) => list.as_slice(),
            None => &[],
        }
    }

    /// Puts an item behind those under a name. `NoMemory` alone is an error.
    pub fn put(&mut self, alloc: Global, name: &ClassName, item: T) -> Result<(), NoMemory>
        ensures { OnOk result ((other : List ℕ) → items_at self.new other ≡ (if is_same_text name.now other then items_at self.old other ++ item ∷ [] else items_at self.old other)) }
    {
        if let Some(list) = self.lists.get_mut(name) {
            list.push(item)?;
            return Ok(());
        }
        let mut list = Vec::new(alloc);
        list.push(item)?;
        self.lists.insert(name.copied()?, list)?;
        Ok(())
    }
}
