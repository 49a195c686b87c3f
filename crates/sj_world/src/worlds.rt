// Worlds.
ghost use Rattle.std.specs.Prelude.{◌≡◌, true, false, if◌then◌else◌, IfOk, MatchResult, MatchOption, option_map};
ghost use Rattle.std.specs.List.{list_any};
ghost use Rattle.sj_world.specs.Known.{class_of, is_known, hijacked, is_hijacked, is_same};
ghost use Rattle.sj_world.specs.Tables.{AreAncestors, AreChain};
ghost use Rattle.sj_world.specs.Refusals.{IsInOrder, HasNoCycle, IsWorldOf, IsRefused, IsRefusedForCycle};

use crate::cycles::least_on_cycle;
use crate::known::class_in;
use crate::lines::{Tables, tables_of};
use crate::order::in_order;
use sj_names::{ClassName, NoMemory};
use sj_trees::ClassDef;
use std::alloc::{AllocError, AllocFailed, Global};
use std::marker::Model;
use std::rc::Rc;
use thiserror::Error;

/// Why classes make no world.
#[derive(Debug, Drop, Error)]
pub enum WorldError {
    /// The least name that two classes have.
    #[error("the class {0} is defined twice")]
    DuplicateClass(ClassName),
    /// The least class that stands above itself.
    #[error("the class {0} stands above itself")]
    Cycle(ClassName),
    /// No memory was left.
    #[error("no memory is left")]
    NoMemory,
}

impl From<AllocError> for WorldError {
    ghost use Rattle.sj_world.specs.declared.worlds.WorldError.TheVariants.{NoMemory};

    ghost from_gives = { λ _ e. e ≡ NoMemory };

    fn from(_error: AllocError) -> WorldError {
        WorldError::NoMemory
    }
}

impl<T: Drop> From<AllocFailed<T>> for WorldError {
    ghost use Rattle.sj_world.specs.declared.worlds.WorldError.TheVariants.{NoMemory};

    ghost from_gives = { λ _ e. e ≡ NoMemory };

    fn from(_error: AllocFailed<T>) -> WorldError {
        WorldError::NoMemory
    }
}

impl From<NoMemory> for WorldError {
    ghost use Rattle.sj_world.specs.declared.worlds.WorldError.TheVariants.{NoMemory};

    ghost from_gives = { λ _ e. e ≡ NoMemory };

    fn from(_error: NoMemory) -> WorldError {
        WorldError::NoMemory
    }
}

// Classes in the order of the bytes of their names, with their tables.
#[derive(Drop)]
struct Parts {
    classes: Vec<ClassDef>,
    tables: Tables,
}

/// Classes of different names, none of which stands above itself. A copy shares them.
#[derive(Drop)]
pub struct World {
    parts: Rc<Parts>,
}

impl Model for World {
    ghost use Rattle.std.specs.Prelude.{List};
    ghost use Rattle.sj_trees.specs.declared.classes.ClassDef.{ClassDef};
    ghost use Rattle.sj_world.specs.Tables.{IsBuilt};

    ghost Value = { List ClassDef };

    ghost use Rattle.std.specs.Coded.{coded_list};
    ghost use Rattle.sj_trees.specs.contracts.classes.ClassDef as class;

    ghost coded = { coded_list class.the_row.coded };

    ghost view = { λ w. w.parts.value.classes.items };

    ghost invariant = { λ w. IsBuilt w.parts.value.classes.items w.parts.value.tables };
}

impl World {
    /// The world of these classes; else the least name that two of them have; else, where no name comes twice, the least class
    /// that stands above itself.
    pub fn new(alloc: Global, classes: Vec<ClassDef>) -> Result<World, WorldError>
        ensures { MatchResult result (IsWorldOf classes.items) (IsRefused classes.items) }
    {
        let classes = in_order(classes)?;
        no_cycle(alloc, &classes)?;
        let tables = tables_of(alloc, &classes)?;
        let parts = Rc::new(alloc, Parts { classes, tables })?;
        Ok(World { parts })
    }

    /// The same world once more, which shares its classes. `NoMemory` alone is an error.
    pub fn copied(&self) -> Result<World, NoMemory>
        ensures { IfOk result (λ w. w ≡ self.now) }
    {
        let parts = self.parts.clone()?;
        Ok(World { parts })
    }

    /// The classes, in the order of the bytes of their names.
    pub fn classes(&self) -> &[ClassDef]
        ensures all { result.now ≡ self.now }
        ensures in_order { IsInOrder self.now }
        ensures no_cycle { HasNoCycle self.now }
    {
        &self.parts.as_ref().classes
    }

    /// The class of this name.
    pub fn class(&self, name: &ClassName) -> Option<&ClassDef>
        ensures { option_map (λ c. c.now) result ≡ class_of self.now name.now }
    {
        self.class_named(name.text())
    }

    /// The class whose name this text is.
    pub fn class_named(&self, name: &str) -> Option<&ClassDef>
        ensures { option_map (λ c. c.now) result ≡ class_of self.now name.now }
    {
        class_in(&self.parts.as_ref().classes, name)
    }

    /// The ancestors of a class, in the order of the bytes of their names; `None` exactly where it isn't known. Known are the classes
    /// of the world and the eight hijacked classes.
    pub fn ancestors(&self, name: &ClassName) -> Option<&[ClassName]>
        ensures { MatchOption result (is_known self.now name.now ≡ false) (λ names. (is_known self.now name.now ≡ true) × AreAncestors self.now name.now names.now) }
    {
        match self.parts.as_ref().tables.lines.get(name) {
            Some(line) => Some(line.ancestors.as_slice()),
            None => None,
        }
    }

    /// The class, its superclass, and so on, each once; `None` exactly where it isn't known.
    pub fn chain(&self, name: &ClassName) -> Option<&[ClassName]>
        ensures { MatchOption result (is_known self.now name.now ≡ false) (λ names. (is_known self.now name.now ≡ true) × AreChain self.now name.now names.now) }
    {
        match self.parts.as_ref().tables.lines.get(name) {
            Some(line) => Some(line.chain.as_slice()),
            None => None,
        }
    }

    /// The names of the eight hijacked classes.
    pub fn hijacked(&self) -> &[ClassName]
        ensures { result.now ≡ hijacked }
    {
        self.parts.as_ref().tables.hijacked.as_slice()
    }

    // The name of one of the eight hijacked classes.
    pub(crate) fn hijacked_name(&self, text: &str) -> Option<&ClassName>
        requires { is_hijacked text.now ≡ true }
        ensures { option_map (λ name. name.now) result ≡ Some text.now }
    {
        name_in(self.hijacked(), text)
    }
}

// The name with this text.
fn name_in<'n>(names: &'n [ClassName], text: &str) -> Option<&'n ClassName>
    ensures { option_map (λ name. name.now) result ≡ (if list_any (is_same text.now) names.now then Some text.now else None) }
{
    for name in names {
        if text == name.text() {
            return Some(name);
        }
    }
    None
}

// That no class stands above itself; else the least that does.
fn no_cycle(alloc: Global, classes: &[ClassDef]) -> Result<(), WorldError>
    requires { IsInOrder classes.now }
    ensures { MatchResult result (λ _. HasNoCycle classes.now) (IsRefusedForCycle classes.now) }
{
    match least_on_cycle(alloc, classes)? {
        Some(name) => Err(WorldError::Cycle(name.copied()?)),
        None => Ok(()),
    }
}
