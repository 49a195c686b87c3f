// The methods that are called, and those that may be called on instances of a class.
ghost use Rattle.std.specs.Prelude.{◌↔◌, IfOk, OnOk, Contains};
ghost use Rattle.class_lists.specs.Lists.{items_at};
ghost use Rattle.sj_names.specs.declared.method_names.MethodName.{MethodName as Method};
ghost use Rattle.sj_baselink.specs.Steps.{Puts, PutsCalled, AreCalled, OfOne, IsWantedFrom, IsWantedAboveFrom};

use crate::named::put_name;
use crate::superclasses::superclass;
use class_lists::Lists;
use indexmap::IndexSet;
use sj_names::{ClassName, MethodName, NoMemory};
use sj_world::{Fact, World};
use std::alloc::Global;

/// The methods that are called, under the classes on which they are called.
pub fn called_names(alloc: Global, facts: &[Fact]) -> Result<Lists<MethodName>, NoMemory>
    ensures { IfOk result (AreCalled facts.now) }
{
    let mut called = Lists::new(alloc);
    for fact in facts {
        put_called(alloc, fact, &mut called)?;
    }
    Ok(called)
}

// Puts the method that the fact calls, if it calls one, under the class on which it is called.
fn put_called(alloc: Global, fact: &Fact, called: &mut Lists<MethodName>) -> Result<(), NoMemory>
    ensures { OnOk result (PutsCalled fact.now called.old called.new) }
{
    match fact {
        Fact::Called(class, method) => called.put(alloc, class, method.copied()?),
        _ => Ok(()),
    }
}

/// The methods that are called on classes of which this one is a subtype, each once.
pub fn wanted_names(
    alloc: Global,
    w: &World,
    called: &Lists<MethodName>,
    class: &ClassName,
) -> Result<IndexSet<MethodName>, NoMemory>
    ensures { IfOk result (λ names. (m : Method) → Contains names.keys m ↔ IsWantedFrom w.now called.now class.now m) }
{
    let mut names = IndexSet::new(alloc);
    put_wanted(w, called, class, &mut names)?;
    Ok(names)
}

/// The methods that are called on classes of which the superclass of this one is a subtype, each once.
pub fn wanted_above(
    alloc: Global,
    w: &World,
    called: &Lists<MethodName>,
    class: &ClassName,
) -> Result<IndexSet<MethodName>, NoMemory>
    ensures { IfOk result (λ names. (m : Method) → Contains names.keys m ↔ IsWantedAboveFrom w.now called.now class.now m) }
{
    let mut names = IndexSet::new(alloc);
    put_wanted_above(w, called, class, &mut names)?;
    Ok(names)
}

fn put_wanted_above(
    w: &World,
    called: &Lists<MethodName>,
    class: &ClassName,
    names: &mut IndexSet<MethodName>,
) -> Result<(), NoMemory>
    ensures { OnOk result (Puts (IsWantedAboveFrom w.now called.now class.now) names.old.keys names.new.keys) }
{
    match superclass(w, class) {
        Some(above) => put_wanted(w, called, above, names),
        None => Ok(()),
    }
}

fn put_wanted(
    w: &World,
    called: &Lists<MethodName>,
    class: &ClassName,
    names: &mut IndexSet<MethodName>,
) -> Result<(), NoMemory>
    ensures { OnOk result (Puts (IsWantedFrom w.now called.now class.now) names.old.keys names.new.keys) }
{
    match w.ancestors(class) {
        Some(ancestors) => put_called_on_each(ancestors, called, names),
        None => Ok(()),
    }
}

fn put_called_on_each(
    receivers: &[ClassName],
    called: &Lists<MethodName>,
    names: &mut IndexSet<MethodName>,
) -> Result<(), NoMemory>
    ensures { OnOk result (Puts (OfOne receivers.now (λ receiver. Contains (items_at called.now receiver))) names.old.keys names.new.keys) }
{
    for receiver in receivers {
        put_names(called.at(receiver), names)?;
    }
    Ok(())
}

fn put_names(more: &[MethodName], names: &mut IndexSet<MethodName>) -> Result<(), NoMemory>
    ensures { OnOk result (Puts (Contains more.now) names.old.keys names.new.keys) }
{
    for name in more {
        put_name(name, names)?;
    }
    Ok(())
}
