// What stands above a class.
ghost use Rattle.std.specs.Prelude.{◌≡◌, ◌↔◌, ◌∷◌, [], IfOk, OnOk, true, Contains};
ghost use Rattle.std.specs.List.{filter};
ghost use Rattle.sj_world.specs.Known as known;
ghost use Rattle.indexmap.specs.IndexSet.{insert_all};
ghost use Rattle.sj_world.specs.Ancestors as ancestors;
ghost use Rattle.sj_world.specs.Tables.{AreAncestors};
ghost use Rattle.sj_world.specs.Refusals.{IsInOrder};

use crate::known::{class_in, is_known, stands_as};
use indexmap::IndexSet;
use sj_names::{ClassName, NoMemory, is_hijacked};
use sj_trees::ClassDef;
use std::alloc::Global;
use worklist::{Step, search_from};

/// The ancestors of a known class, in the order of their bytes.
pub fn ancestors_of(
    alloc: Global,
    classes: &[ClassDef],
    object: &ClassName,
    name: &ClassName,
) -> Result<Vec<ClassName>, NoMemory>
    requires in_order { IsInOrder classes.now }
    requires object { object.now ≡ known.object }
    requires known { known.is_known classes.now name.now ≡ true }
    ensures { IfOk result (λ names. AreAncestors classes.now name.now names.items) }
{
    let mut found = found_above(alloc, classes, object, name)?;
    found.sort_unstable()?;
    listed(alloc, &found)
}

// The ancestors of a known class, each once.
fn found_above(
    alloc: Global,
    classes: &[ClassDef],
    object: &ClassName,
    name: &ClassName,
) -> Result<IndexSet<ClassName>, NoMemory>
    requires in_order { IsInOrder classes.now }
    requires object { object.now ≡ known.object }
    requires known { known.is_known classes.now name.now ≡ true }
    ensures { IfOk result (λ found. (x : known.Name) → Contains found.keys x ↔ ancestors.IsAncestor classes.now name.now x) }
{
    let parents = Parents { classes, object };
    let mut found = search_from(alloc, &parents, name.copied()?)?;
    found.insert(object.copied()?)?;
    Ok(found)
}

// The names as a list.
pub fn listed(alloc: Global, names: &IndexSet<ClassName>) -> Result<Vec<ClassName>, NoMemory>
    ensures { IfOk result (λ list. list.items ≡ names.now.keys) }
{
    let mut list = Vec::new(alloc);
    for place in 0..names.len() {
        list.push(names[place].copied()?)?;
    }
    Ok(list)
}

// What stands one step above a class, of that what is known.
#[derive(Drop)]
struct Parents<'c> {
    classes: &'c [ClassDef],
    object: &'c ClassName,
    ghost in_order: { IsInOrder classes.now },
    ghost is_object: { object.now ≡ known.object },
}

impl<'c> Step<ClassName> for Parents<'c> {
    ghost next = { λ s name. ancestors.parents s.classes.now name };

    fn add_next(&self, name: &ClassName, found: &mut IndexSet<ClassName>) -> Result<(), NoMemory> {
        let name = stands_as(name.text());
        match class_in(self.classes, name) {
            Some(class) => add_known_of(self.classes, class, found),
            None if is_hijacked(name) => add_known(self.classes, self.object, found),
            None => Ok(()),
        }
    }
}

// Adds what a class writes above it and is known.
fn add_known_of(
    classes: &[ClassDef],
    class: &ClassDef,
    found: &mut IndexSet<ClassName>,
) -> Result<(), NoMemory>
    requires { IsInOrder classes.now }
    ensures { OnOk result (found.new.keys ≡ insert_all known.is_same found.old.keys (filter (known.is_known classes.now) (ancestors.written class.now))) }
{
    if let Some(superclass) = &class.superclass {
        add_known(classes, superclass, found)?;
    }
    add_all_known(classes, class.interfaces.as_slice(), found)
}

fn add_all_known(
    classes: &[ClassDef],
    names: &[ClassName],
    found: &mut IndexSet<ClassName>,
) -> Result<(), NoMemory>
    requires { IsInOrder classes.now }
    ensures { OnOk result (found.new.keys ≡ insert_all known.is_same found.old.keys (filter (known.is_known classes.now) names.now)) }
{
    for name in names {
        add_known(classes, name, found)?;
    }
    Ok(())
}

fn add_known(
    classes: &[ClassDef],
    name: &ClassName,
    found: &mut IndexSet<ClassName>,
) -> Result<(), NoMemory>
    requires { IsInOrder classes.now }
    ensures { OnOk result (found.new.keys ≡ insert_all known.is_same found.old.keys (filter (known.is_known classes.now) (name.now ∷ []))) }
{
    if is_known(classes, name.text()) {
        found.insert(name.copied()?)?;
    }
    Ok(())
}
