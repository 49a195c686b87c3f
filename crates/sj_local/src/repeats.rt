// What comes twice in a list.
ghost use Rattle.std.specs.Prelude.{◌≡◌, map, IfOk, []};
ghost use Rattle.sj_local.specs.Firsts.{FirstRepeat};

use crate::walks::{Declaration, Declared};
use indexmap::IndexSet;
use sj_names::{ClassName, NoMemory};
use std::alloc::Global;
use std::hash::Hash;

/// Keys, of which those that compare as equal are one.
pub trait Key: Eq + Hash + Drop {
    ghost use Rattle.std.specs.Prelude.{IsTrue, ◌↔◌, ◌≡◌};

    fn exact()
        ensures { (a b : Self) → IsTrue (Self.PartialEq.eq a b) ↔ (a ≡ b) };
}

/// Things of which each has a key.
pub trait Keyed {
    type Key: Key;

    ghost use Rattle.std.specs.Prelude.{◌≡◌};

    ghost key: { Self → Self.Key };

    fn key(&self) -> Result<Self::Key, NoMemory>
        ensures { IfOk result (λ k. k ≡ key self.now) };
}

/// The first of `items` whose key came before.
pub fn first_repeat<T: Keyed>(alloc: Global, items: &[T]) -> Result<Option<usize>, NoMemory>
    ensures { IfOk result (λ found. FirstRepeat [] (map T.key items.now) found) }
{
    T::Key::exact();
    let mut earlier = IndexSet::new(alloc);
    for (index, item) in items.iter().enumerate() {
        if !earlier.insert(item.key()?)? {
            return Ok(Some(index));
        }
    }
    Ok(None)
}

impl Key for ClassName {
    fn exact() {}
}

impl Keyed for ClassName {
    type Key = ClassName;

    ghost key = { λ n. n };

    fn key(&self) -> Result<ClassName, NoMemory> {
        self.copied()
    }
}

impl Key for Declaration {
    fn exact() {}
}

impl Keyed for Declared {
    type Key = Declaration;

    ghost use Rattle.sj_local.specs.declared.walks.Declaration.{Declaration};

    ghost key = { λ d. d.declaration };

    fn key(&self) -> Result<Declaration, NoMemory> {
        match &self.declaration {
            Declaration::Local(name) => Ok(Declaration::Local(name.copied()?)),
            Declaration::Label(name) => Ok(Declaration::Label(name.copied()?)),
        }
    }
}
