// Chains of superclasses.
ghost use Rattle.std.specs.Prelude.{◌≡◌, IfOk, option_map};
ghost use Rattle.sj_world.specs.Known as known;
ghost use Rattle.sj_world.specs.Ancestors as ancestors;
ghost use Rattle.sj_world.specs.Tables.{AreChain};
ghost use Rattle.sj_world.specs.Refusals.{IsInOrder};

use crate::above::listed;
use crate::known::{class_in, stands_as};
use indexmap::IndexSet;
use sj_names::{ClassName, NoMemory, is_hijacked};
use sj_trees::ClassDef;
use std::alloc::Global;
use worklist::{Step, search_from};

/// The class, its superclass, and so on, each once.
pub fn chain_of(
    alloc: Global,
    classes: &[ClassDef],
    object: &ClassName,
    name: &ClassName,
) -> Result<Vec<ClassName>, NoMemory>
    requires in_order { IsInOrder classes.now }
    requires object { object.now ≡ known.object }
    ensures { IfOk result (λ names. AreChain classes.now name.now names.items) }
{
    let superclass = Superclass { classes, object };
    let found = search_from(alloc, &superclass, name.copied()?)?;
    listed(alloc, &found)
}

// The class after this one.
#[derive(Drop)]
struct Superclass<'c> {
    classes: &'c [ClassDef],
    object: &'c ClassName,
    ghost in_order: { IsInOrder classes.now },
    ghost is_object: { object.now ≡ known.object },
}

impl<'c> Step<ClassName> for Superclass<'c> {
    ghost next = { λ s name. ancestors.listed (ancestors.next_on_chain s.classes.now name) };

    fn add_next(&self, name: &ClassName, found: &mut IndexSet<ClassName>) -> Result<(), NoMemory> {
        if let Some(above) = next_on_chain(self.classes, self.object, name.text()) {
            found.insert(above.copied()?)?;
        }
        Ok(())
    }
}

// The class after the one of this name.
fn next_on_chain<'c>(
    classes: &'c [ClassDef],
    object: &'c ClassName,
    name: &str,
) -> Option<&'c ClassName>
    requires in_order { IsInOrder classes.now }
    requires object { object.now ≡ known.object }
    ensures { option_map (λ n. n.now) result ≡ ancestors.next_on_chain classes.now name.now }
{
    let line = stands_as(name);
    match class_in(classes, line) {
        Some(class) => class.superclass.as_ref(),
        None if is_hijacked(line) => Some(object),
        None => None,
    }
}
