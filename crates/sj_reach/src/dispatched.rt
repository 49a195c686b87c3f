// What calls run on the instances of classes.
ghost use Rattle.std.specs.Prelude.{OnOk};
ghost use Rattle.class_lists.specs.Lists.{items_at};
ghost use Rattle.sj_reach.specs.Conclusions.{Adds, Among};
ghost use Rattle.sj_reach.specs.Steps as steps;

use crate::calls::{need_body, tell_no_body};
use crate::findings::Findings;
use class_lists::Lists;
use sj_names::{ClassName, MethodName, NoMemory};
use sj_world::{Resolution, World};
use std::alloc::Global;

/// The method is called on instances of the class.
pub fn dispatch(
    alloc: Global,
    world: &World,
    class: &ClassName,
    method: &MethodName,
    found: &mut Findings,
) -> Result<(), NoMemory>
    ensures { OnOk result (Adds (steps.OfDispatch world.now method.now class.now) found.old found.new) }
{
    match world.resolve(class, method) {
        Resolution::Target(_, owner) => need_body(owner, method, found),
        Resolution::Abstract => tell_no_body(alloc, class, method, found),
        Resolution::Missing => tell_no_body(alloc, class, method, found),
    }
}

/// The method is called on instances of each of the classes.
pub fn dispatch_on_each(
    alloc: Global,
    world: &World,
    classes: &[ClassName],
    method: &MethodName,
    found: &mut Findings,
) -> Result<(), NoMemory>
    ensures { OnOk result (Adds (Among classes.now (steps.OfDispatch world.now method.now)) found.old found.new) }
{
    for class in classes {
        dispatch(alloc, world, class, method, found)?;
    }
    Ok(())
}

/// The method is called on instances of those of the classes that are below `above`.
pub fn dispatch_on_each_below(
    alloc: Global,
    world: &World,
    above: &ClassName,
    classes: &[ClassName],
    method: &MethodName,
    found: &mut Findings,
) -> Result<(), NoMemory>
    ensures { OnOk result (Adds (Among classes.now (steps.OfBelow world.now method.now above.now)) found.old found.new) }
{
    for class in classes {
        dispatch_if_below(alloc, world, above, class, method, found)?;
    }
    Ok(())
}

fn dispatch_if_below(
    alloc: Global,
    world: &World,
    above: &ClassName,
    class: &ClassName,
    method: &MethodName,
    found: &mut Findings,
) -> Result<(), NoMemory>
    ensures { OnOk result (Adds (steps.OfBelow world.now method.now above.now class.now) found.old found.new) }
{
    if world.is_ancestor(class, above) {
        dispatch(alloc, world, class, method, found)
    } else {
        Ok(())
    }
}

/// What is called on the ancestors of the class is called on its instances.
pub fn dispatch_from_above(
    alloc: Global,
    world: &World,
    class: &ClassName,
    called: &Lists<MethodName>,
    found: &mut Findings,
) -> Result<(), NoMemory>
    ensures { OnOk result (Adds (steps.OfAncestors world.now called.now class.now) found.old found.new) }
{
    match world.ancestors(class) {
        Some(ancestors) => dispatch_from_each(alloc, world, class, ancestors, called, found),
        None => Ok(()),
    }
}

fn dispatch_from_each(
    alloc: Global,
    world: &World,
    class: &ClassName,
    ancestors: &[ClassName],
    called: &Lists<MethodName>,
    found: &mut Findings,
) -> Result<(), NoMemory>
    ensures { OnOk result (Adds (Among ancestors.now (λ above. Among (items_at called.now above) (λ m. steps.OfDispatch world.now m class.now))) found.old found.new) }
{
    for ancestor in ancestors {
        dispatch_all(alloc, world, class, called.at(ancestor), found)?;
    }
    Ok(())
}

fn dispatch_all(
    alloc: Global,
    world: &World,
    class: &ClassName,
    methods: &[MethodName],
    found: &mut Findings,
) -> Result<(), NoMemory>
    ensures { OnOk result (Adds (Among methods.now (λ m. steps.OfDispatch world.now m class.now)) found.old found.new) }
{
    for method in methods {
        dispatch(alloc, world, class, method, found)?;
    }
    Ok(())
}
