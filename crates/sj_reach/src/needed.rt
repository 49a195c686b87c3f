// What follows from a class that is needed.
ghost use Rattle.std.specs.Prelude.{◌↔◌, OnOk, IsTrue};
ghost use Rattle.sj_reach_spec.specs.Refusals.{IsOtherKind};
ghost use Rattle.sj_reach.specs.Conclusions.{Adds, Among};
ghost use Rattle.sj_reach.specs.Steps as steps;

use crate::findings::Findings;
use sj_names::{ClassName, NoMemory};
use sj_trees::{ClassDef, ClassKind};
use sj_world::World;
use std::alloc::Global;

/// The class is needed: what it writes above it is, too, of the right kinds.
pub fn go_through_needed(
    alloc: Global,
    world: &World,
    name: &ClassName,
    found: &mut Findings,
) -> Result<(), NoMemory>
    ensures { OnOk result (Adds (steps.OfNeeded world.now name.now) found.old found.new) }
{
    match world.class(name) {
        Some(class) => need_parents(alloc, world, class, found),
        None => found.tell_missing_class(alloc, name),
    }
}

/// What a hijacked class writes above it is needed.
pub fn need_parents_of_hijacked(
    alloc: Global,
    world: &World,
    name: &ClassName,
    found: &mut Findings,
) -> Result<(), NoMemory>
    ensures { OnOk result (Adds (steps.OfHijacked world.now name.now) found.old found.new) }
{
    match world.class(name) {
        Some(class) => need_parents(alloc, world, class, found),
        None => Ok(()),
    }
}

fn need_parents(
    alloc: Global,
    world: &World,
    class: &ClassDef,
    found: &mut Findings,
) -> Result<(), NoMemory>
    ensures { OnOk result (Adds (steps.OfParents world.now class.now) found.old found.new) }
{
    need_superclass(alloc, world, &class.superclass, found)?;
    need_interfaces(alloc, world, class.interfaces.as_slice(), found)
}

fn need_superclass(
    alloc: Global,
    world: &World,
    superclass: &Option<ClassName>,
    found: &mut Findings,
) -> Result<(), NoMemory>
    ensures { OnOk result (Adds (steps.OfSuperclass world.now superclass.now) found.old found.new) }
{
    match superclass {
        Some(name) => need_of_kind(alloc, world, name, ClassKind::Class, found),
        None => Ok(()),
    }
}

fn need_interfaces(
    alloc: Global,
    world: &World,
    interfaces: &[ClassName],
    found: &mut Findings,
) -> Result<(), NoMemory>
    ensures { OnOk result (Adds (Among interfaces.now (steps.OfClass world.now ClassKind.Interface)) found.old found.new) }
{
    for name in interfaces {
        need_of_kind(alloc, world, name, ClassKind::Interface, found)?;
    }
    Ok(())
}

/// The class is needed, and is to be of this kind.
pub fn need_of_kind(
    alloc: Global,
    world: &World,
    name: &ClassName,
    kind: ClassKind,
    found: &mut Findings,
) -> Result<(), NoMemory>
    ensures { OnOk result (Adds (steps.OfClass world.now kind name.now) found.old found.new) }
{
    found.add_needed(name)?;
    expect_kind(alloc, world, name, kind, found)
}

fn expect_kind(
    alloc: Global,
    world: &World,
    name: &ClassName,
    kind: ClassKind,
    found: &mut Findings,
) -> Result<(), NoMemory>
    ensures { OnOk result (Adds (steps.OfKind world.now kind name.now) found.old found.new) }
{
    if is_other_kind(world, name, kind) {
        found.tell_wrong_kind(alloc, name)
    } else {
        Ok(())
    }
}

// Whether the class of this name is there and of another kind.
fn is_other_kind(world: &World, name: &ClassName, kind: ClassKind) -> bool
    ensures { IsTrue result ↔ IsOtherKind world.now kind name.now }
{
    match world.class(name) {
        Some(class) => class.kind != kind,
        None => false,
    }
}
