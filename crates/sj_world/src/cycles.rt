// Classes that stand above themselves.
ghost use Rattle.std.specs.Prelude.{◌≡◌, ◌↔◌, IfOk, OnOk, IsTrue, MatchOption};
ghost use Rattle.indexmap.specs.IndexSet.{insert_all};
ghost use Rattle.sj_world.specs.Known.{is_same};
ghost use Rattle.sj_world.specs.Ancestors as ancestors;
ghost use Rattle.sj_world.specs.Ancestors.{IsOnCycle};
ghost use Rattle.sj_world.specs.Refusals.{IsInOrder, HasNoCycle, IsLeastOnCycle};

use crate::known::class_in;
use indexmap::IndexSet;
use sj_names::{ClassName, NoMemory};
use sj_trees::ClassDef;
use std::alloc::Global;
use worklist::{Step, add_all, search};

/// The least class that stands above itself by what is written.
pub fn least_on_cycle<'c>(
    alloc: Global,
    classes: &'c [ClassDef],
) -> Result<Option<&'c ClassName>, NoMemory>
    requires { IsInOrder classes.now }
    ensures { IfOk result (λ found. MatchOption found (HasNoCycle classes.now) (λ name. IsLeastOnCycle classes.now name.now)) }
{
    for class in classes {
        if is_on_cycle(alloc, classes, &class.name)? {
            return Ok(Some(&class.name));
        }
    }
    Ok(None)
}

// Whether the class of this name stands above itself.
fn is_on_cycle(alloc: Global, classes: &[ClassDef], name: &ClassName) -> Result<bool, NoMemory>
    requires { IsInOrder classes.now }
    ensures { IfOk result (λ yes. IsTrue yes ↔ IsOnCycle classes.now name.now) }
{
    let written_above = WrittenAbove { classes };
    let mut found = IndexSet::new(alloc);
    written_above.add_next(name, &mut found)?;
    search(&written_above, &mut found)?;
    Ok(found.contains(name))
}

// What is written above a class.
#[derive(Drop)]
struct WrittenAbove<'c> {
    classes: &'c [ClassDef],
    ghost in_order: { IsInOrder classes.now },
}

impl<'c> Step<ClassName> for WrittenAbove<'c> {
    ghost next = { λ s name. ancestors.written_above s.classes.now name };

    fn add_next(&self, name: &ClassName, found: &mut IndexSet<ClassName>) -> Result<(), NoMemory> {
        match class_in(self.classes, name.text()) {
            Some(class) => add_written(class, found),
            None => Ok(()),
        }
    }
}

fn add_written(class: &ClassDef, found: &mut IndexSet<ClassName>) -> Result<(), NoMemory>
    ensures { OnOk result (found.new.keys ≡ insert_all is_same found.old.keys (ancestors.written class.now)) }
{
    if let Some(superclass) = &class.superclass {
        found.insert(superclass.copied()?)?;
    }
    add_all(class.interfaces.as_slice(), found)
}
