// The entries for methods that are called.
ghost use Rattle.std.specs.Prelude.{◌≡◌, ◌↔◌, OnOk, IsTrue, Contains};
ghost use Rattle.sj_names.specs.declared.method_names.MethodName.{MethodName as Method};
ghost use Rattle.sj_baselink_spec.specs.Entries.{IsTarget};
ghost use Rattle.sj_baselink.specs.Steps.{Puts, OfOne, AreMade, AreCalled, IsDirectEntry, IsWantedAbove, IsTargetAbove, IsDirectOf, IsOwnEntry, IsOwn, IsReachedEntry};

use crate::called::{called_names, wanted_above, wanted_names};
use crate::live::live_classes;
use crate::named::{public_member, put_entry};
use crate::superclasses::superclass;
use class_lists::Lists;
use indexmap::IndexSet;
use sj_names::{ClassName, MethodName, NoMemory};
use sj_world::{MethodEntry, Reached, Resolution, World};
use std::alloc::Global;

/// Puts the entries of the classes that are made and of their superclasses for methods that are called.
pub fn put_direct(
    alloc: Global,
    w: &World,
    r: &Reached,
    made: &[ClassName],
    entries: &mut IndexSet<MethodEntry>,
) -> Result<(), NoMemory>
    requires { AreMade r.now made.now }
    ensures { OnOk result (Puts (IsDirectEntry w.now r.now) entries.old.keys entries.new.keys) }
{
    let called = called_names(alloc, r.facts())?;
    let live = live_classes(alloc, w, made)?;
    put_direct_of_each(alloc, w, r, &called, live.as_slice(), entries)
}

fn put_direct_of_each(
    alloc: Global,
    w: &World,
    r: &Reached,
    called: &Lists<MethodName>,
    classes: &[ClassName],
    entries: &mut IndexSet<MethodEntry>,
) -> Result<(), NoMemory>
    requires { AreCalled r.now called.now }
    ensures { OnOk result (Puts (OfOne classes.now (IsDirectOf w.now r.now)) entries.old.keys entries.new.keys) }
{
    for class in classes {
        put_direct_of(alloc, w, r, called, class, entries)?;
    }
    Ok(())
}

fn put_direct_of(
    alloc: Global,
    w: &World,
    r: &Reached,
    called: &Lists<MethodName>,
    class: &ClassName,
    entries: &mut IndexSet<MethodEntry>,
) -> Result<(), NoMemory>
    requires { AreCalled r.now called.now }
    ensures { OnOk result (Puts (IsDirectOf w.now r.now class.now) entries.old.keys entries.new.keys) }
{
    let wanted = wanted_names(alloc, w, called, class)?;
    let above = wanted_above(alloc, w, called, class)?;
    put_own_of_each(w, r, class, wanted.as_slice(), &above, entries)
}

// Puts the entries for those of the names that don't have the same target in the superclass, where the names `above` are wanted.
fn put_own_of_each(
    w: &World,
    r: &Reached,
    class: &ClassName,
    names: &[MethodName],
    above: &IndexSet<MethodName>,
    entries: &mut IndexSet<MethodEntry>,
) -> Result<(), NoMemory>
    requires { (m : Method) → Contains above.now.keys m ↔ IsWantedAbove w.now r.now class.now m }
    ensures { OnOk result (Puts (OfOne names.now (IsOwnEntry w.now r.now class.now)) entries.old.keys entries.new.keys) }
{
    for name in names {
        put_own(w, r, class, name, above, entries)?;
    }
    Ok(())
}

fn put_own(
    w: &World,
    r: &Reached,
    class: &ClassName,
    name: &MethodName,
    above: &IndexSet<MethodName>,
    entries: &mut IndexSet<MethodEntry>,
) -> Result<(), NoMemory>
    requires { (m : Method) → Contains above.now.keys m ↔ IsWantedAbove w.now r.now class.now m }
    ensures { OnOk result (Puts (IsOwnEntry w.now r.now class.now name.now) entries.old.keys entries.new.keys) }
{
    match w.resolve(class, name) {
        Resolution::Target(_, owner) => put_if_own(w, r, class, name, owner, above, entries),
        Resolution::Abstract => Ok(()),
        Resolution::Missing => Ok(()),
    }
}

fn put_if_own(
    w: &World,
    r: &Reached,
    class: &ClassName,
    name: &MethodName,
    owner: &ClassName,
    above: &IndexSet<MethodName>,
    entries: &mut IndexSet<MethodEntry>,
) -> Result<(), NoMemory>
    requires { (m : Method) → Contains above.now.keys m ↔ IsWantedAbove w.now r.now class.now m }
    ensures { OnOk result (Puts (IsOwn w.now r.now class.now name.now owner.now) entries.old.keys entries.new.keys) }
{
    if is_inherited(w, class, name, owner, above) {
        Ok(())
    } else {
        put_if_reached(r, class, name, owner, entries)
    }
}

// Whether the name is one of those that are wanted at the superclass of the class, and has this target there.
fn is_inherited(
    w: &World,
    class: &ClassName,
    name: &MethodName,
    owner: &ClassName,
    above: &IndexSet<MethodName>,
) -> bool
    ensures { IsTrue result ↔ (Contains above.now.keys name.now × IsTargetAbove w.now class.now name.now owner.now) }
{
    has_name(above, name) && runs_above(w, class, name, owner)
}

fn has_name(names: &IndexSet<MethodName>, name: &MethodName) -> bool
    ensures { IsTrue result ↔ Contains names.now.keys name.now }
{
    names.contains(name)
}

fn put_if_reached(
    r: &Reached,
    class: &ClassName,
    name: &MethodName,
    owner: &ClassName,
    entries: &mut IndexSet<MethodEntry>,
) -> Result<(), NoMemory>
    ensures { OnOk result (Puts (IsReachedEntry r.now class.now name.now owner.now) entries.old.keys entries.new.keys) }
{
    let target = public_member(owner, name)?;
    if r.has_body(&target) {
        put_entry(class, name, target, entries)
    } else {
        Ok(())
    }
}

// Whether a call on the superclass of the class runs the body of this owner.
fn runs_above(w: &World, class: &ClassName, name: &MethodName, owner: &ClassName) -> bool
    ensures { IsTrue result ↔ IsTargetAbove w.now class.now name.now owner.now }
{
    match superclass(w, class) {
        Some(above) => runs(w, above, name, owner),
        None => false,
    }
}

// Whether a call on the class runs the body of this owner.
fn runs(w: &World, class: &ClassName, name: &MethodName, owner: &ClassName) -> bool
    ensures { IsTrue result ↔ IsTarget w.now class.now name.now owner.now }
{
    match w.resolve(class, name) {
        Resolution::Target(_, found) => found.is_same(owner),
        Resolution::Abstract => false,
        Resolution::Missing => false,
    }
}
