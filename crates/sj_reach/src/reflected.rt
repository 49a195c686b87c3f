// What reflective calls reach.
ghost use Rattle.std.specs.Prelude.{OnOk};
ghost use Rattle.sj_reach.specs.Conclusions.{Adds, Just, Among, follows};
ghost use Rattle.sj_reach.specs.Steps as steps;

use crate::calls::{need_body, tell_no_body};
use crate::findings::Findings;
use proxy_targets::names_of_targets;
use sj_names::{ClassName, MethodName, NoMemory};
use sj_world::{Fact, Resolution, World};
use std::alloc::Global;

/// The reflective calls reach what they call on instances of the class.
pub fn reflect_each_on(
    alloc: Global,
    world: &World,
    class: &ClassName,
    proxies: &[MethodName],
    found: &mut Findings,
) -> Result<(), NoMemory>
    ensures { OnOk result (Adds (Among proxies.now (λ p. steps.OfProxy world.now p class.now)) found.old found.new) }
{
    for proxy in proxies {
        reflect_on(alloc, world, class, proxy, found)?;
    }
    Ok(())
}

/// The reflective call reaches what it calls on instances of each of the classes.
pub fn reflect_on_each(
    alloc: Global,
    world: &World,
    classes: &[ClassName],
    proxy: &MethodName,
    found: &mut Findings,
) -> Result<(), NoMemory>
    ensures { OnOk result (Adds (Among classes.now (steps.OfProxy world.now proxy.now)) found.old found.new) }
{
    for class in classes {
        reflect_on(alloc, world, class, proxy, found)?;
    }
    Ok(())
}

// A reflective call on instances of a class that is made.
fn reflect_on(
    alloc: Global,
    world: &World,
    class: &ClassName,
    proxy: &MethodName,
    found: &mut Findings,
) -> Result<(), NoMemory>
    ensures { OnOk result (Adds (steps.OfProxy world.now proxy.now class.now) found.old found.new) }
{
    let names = names_of_targets(alloc, world, class, proxy)?;
    call_each(class, names.as_slice(), found)
}

fn call_each(
    class: &ClassName,
    methods: &[MethodName],
    found: &mut Findings,
) -> Result<(), NoMemory>
    ensures { OnOk result (Adds (Among methods.now (λ m. Just (follows (Fact.Called class.now m)))) found.old found.new) }
{
    for method in methods {
        found.add_called(class, method)?;
    }
    Ok(())
}

/// The reflective call reaches what it runs on each of the hijacked classes.
pub fn reflect_on_hijacked(
    alloc: Global,
    world: &World,
    classes: &[ClassName],
    proxy: &MethodName,
    found: &mut Findings,
) -> Result<(), NoMemory>
    ensures { OnOk result (Adds (Among classes.now (steps.OfHijackedProxy world.now proxy.now)) found.old found.new) }
{
    for class in classes {
        run_on_hijacked(alloc, world, class, proxy, found)?;
    }
    Ok(())
}

fn run_on_hijacked(
    alloc: Global,
    world: &World,
    class: &ClassName,
    proxy: &MethodName,
    found: &mut Findings,
) -> Result<(), NoMemory>
    ensures { OnOk result (Adds (steps.OfHijackedProxy world.now proxy.now class.now) found.old found.new) }
{
    let names = names_of_targets(alloc, world, class, proxy)?;
    run_each(alloc, world, class, names.as_slice(), found)
}

fn run_each(
    alloc: Global,
    world: &World,
    class: &ClassName,
    methods: &[MethodName],
    found: &mut Findings,
) -> Result<(), NoMemory>
    ensures { OnOk result (Adds (Among methods.now (λ m. steps.Answered world.now class.now m (steps.at_hijacked world.now class.now m))) found.old found.new) }
{
    for method in methods {
        run(alloc, world, class, method, found)?;
    }
    Ok(())
}

fn run(
    alloc: Global,
    world: &World,
    class: &ClassName,
    method: &MethodName,
    found: &mut Findings,
) -> Result<(), NoMemory>
    ensures { OnOk result (Adds (steps.Answered world.now class.now method.now (steps.at_hijacked world.now class.now method.now)) found.old found.new) }
{
    match world.resolve(class, method) {
        Resolution::Target(_, owner) => need_body(owner, method, found),
        Resolution::Abstract => tell_no_body(alloc, class, method, found),
        Resolution::Missing => Ok(()),
    }
}
