// The classes of keys.
ghost use Rattle.std.specs.Prelude.{◌≡◌, ◌∷◌, ◌++◌, ◌<◌, [], IfOk, OnOk, length, if◌then◌else◌};
ghost use Rattle.std.specs.List.{position_or_len};
ghost use Rattle.class_groups.specs.Groups.{Name, is_same, group_at, AreGroups};

use indexmap::IndexSet;
use sj_names::{ClassName, NoMemory, Text};
use std::alloc::Global;

/// Classes, grouped by keys. The classes of a key stand in the order in which they were added.
#[derive(Drop)]
pub struct ClassGroups {
    keys: IndexSet<Text>,
    classes: Vec<Vec<ClassName>>,
}

impl ClassGroups {
    /// No class under any key.
    pub fn new(alloc: Global) -> ClassGroups
        ensures groups { AreGroups result }
        ensures none { (key : Name) → group_at result key ≡ [] }
    {
        ClassGroups {
            keys: IndexSet::new(alloc),
            classes: Vec::new(alloc),
        }
    }

    /// Puts a class behind those of a key.
    pub fn add(&mut self, alloc: Global, key: &Text, class: &ClassName) -> Result<(), NoMemory>
        requires { AreGroups self.now }
        ensures groups { OnOk result (AreGroups self.new) }
        ensures added { OnOk result ((other : Name) → group_at self.new other ≡ group_at self.old other ++ (if is_same key.now other then class.now ∷ [] else [])) }
    {
        let place = self.place(alloc, key)?;
        self.classes[place].push(class.copied()?)?;
        Ok(())
    }

    // The place of the key, which is put behind the others where it isn't there yet.
    fn place(&mut self, alloc: Global, key: &Text) -> Result<usize, NoMemory>
        requires { AreGroups self.now }
        ensures groups { OnOk result (AreGroups self.new) }
        ensures same { OnOk result ((other : Name) → group_at self.new other ≡ group_at self.old other) }
        ensures place { IfOk result (λ place. place ≡ position_or_len (is_same key.now) self.new.keys.keys) }
        ensures within { IfOk result (λ place. place < length self.new.classes.items) }
    {
        let (place, is_new) = self.keys.insert_full(key.copied()?)?;
        if is_new {
            self.classes.push(Vec::new(alloc))?;
        }
        Ok(place)
    }

    /// The classes of a key.
    pub fn classes(&self, alloc: Global, key: &Text) -> Result<Vec<ClassName>, NoMemory>
        ensures { IfOk result (λ list. list.items ≡ group_at self.now key.now) }
    {
        match self.keys.get_index_of(key) {
            Some(place) => match self.classes.get(place) {
                Some(classes) => Ok(copies(alloc, classes.as_slice())?),
                None => Ok(Vec::new(alloc)),
            },
            None => Ok(Vec::new(alloc)),
        }
    }
}

// The same classes once more.
fn copies(alloc: Global, classes: &[ClassName]) -> Result<Vec<ClassName>, NoMemory>
    ensures { IfOk result (λ list. list.items ≡ classes.now) }
{
    let mut list = Vec::new(alloc);
    for class in classes {
        list.push(class.copied()?)?;
    }
    Ok(list)
}
