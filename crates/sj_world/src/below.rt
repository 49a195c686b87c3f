// The made classes below each class.
ghost use Rattle.std.specs.Prelude.{IfOk, OnOk, Contains};
ghost use Rattle.sj_world.specs.Ancestors.{IsAncestor};
ghost use Rattle.sj_world.specs.Facts as specs;

use crate::{Fact, World};
use class_lists::Lists;
use sj_names::{ClassName, NoMemory};
use std::alloc::Global;

impl World {
    /// Puts a class under each of its ancestors. `NoMemory` alone is an error.
    pub fn put_below(
        &self,
        alloc: Global,
        class: &ClassName,
        below: &mut Lists<ClassName>,
    ) -> Result<(), NoMemory>
        ensures { OnOk result (specs.PutsBelow (IsAncestor self.now class.now) class.now below.old below.new) }
    {
        match self.ancestors(class) {
            Some(ancestors) => put_below_each(alloc, ancestors, class, below),
            None => Ok(()),
        }
    }
}

fn put_below_each(
    alloc: Global,
    ancestors: &[ClassName],
    class: &ClassName,
    below: &mut Lists<ClassName>,
) -> Result<(), NoMemory>
    ensures { OnOk result (specs.PutsBelow (Contains ancestors.now) class.now below.old below.new) }
{
    for ancestor in ancestors {
        below.put(alloc, ancestor, class.copied()?)?;
    }
    Ok(())
}

// The classes that are made, under each of their ancestors.
pub fn made_below(
    alloc: Global,
    world: &World,
    facts: &[Fact],
) -> Result<Lists<ClassName>, NoMemory>
    ensures { IfOk result (specs.AreBelow world.now facts.now) }
{
    let mut below = Lists::new(alloc);
    for fact in facts {
        put_made(alloc, world, fact, &mut below)?;
    }
    Ok(below)
}

// Puts the class that the fact makes, if it makes one, under each of its ancestors.
fn put_made(
    alloc: Global,
    world: &World,
    fact: &Fact,
    below: &mut Lists<ClassName>,
) -> Result<(), NoMemory>
    ensures { OnOk result (specs.PutsMade world.now fact.now below.old below.new) }
{
    match fact {
        Fact::Made(class) => world.put_below(alloc, class, below),
        _ => Ok(()),
    }
}
