// What calls run that are found from a class on.
ghost use Rattle.std.specs.Prelude.{OnOk};
ghost use Rattle.sj_names.specs.WellKnown.{is_hijacked as hijacked};
ghost use Rattle.sj_reach_spec.specs.Refusals.{IsPresent, missing_method, abstract_target};
ghost use Rattle.sj_reach_spec.specs.Rules as rules;
ghost use Rattle.sj_reach.specs.Conclusions.{Adds, Just, follows, tells};
ghost use Rattle.sj_reach.specs.Steps as steps;

use crate::findings::Findings;
use crate::members::public_member;
use sj_names::{ClassName, MethodName, NoMemory, is_hijacked};
use sj_world::{Fact, Resolution, World};
use std::alloc::Global;

/// A call on a receiver of the class: of a hijacked class the body is known, in any other it is whatever is made below.
pub fn call_on_receiver(
    alloc: Global,
    world: &World,
    class: &ClassName,
    method: &MethodName,
    found: &mut Findings,
) -> Result<(), NoMemory>
    ensures { OnOk result (Adds (steps.OfReceiver world.now (hijacked class.now) class.now method.now) found.old found.new) }
{
    if is_hijacked(class.text()) {
        return resolve_from(alloc, world, class, method, found);
    }
    expect_method(alloc, world, class, method, found)?;
    found.add_called(class, method)
}

/// The body is needed that a public name resolves to from a class on.
pub fn resolve_from(
    alloc: Global,
    world: &World,
    class: &ClassName,
    method: &MethodName,
    found: &mut Findings,
) -> Result<(), NoMemory>
    ensures { OnOk result (Adds (steps.OfResolved world.now class.now method.now) found.old found.new) }
{
    match world.resolve(class, method) {
        Resolution::Target(_, owner) => need_body(owner, method, found),
        Resolution::Abstract => tell_abstract_if_present(alloc, world, class, method, found),
        Resolution::Missing => tell_missing_if_present(alloc, world, class, method, found),
    }
}

fn expect_method(
    alloc: Global,
    world: &World,
    class: &ClassName,
    method: &MethodName,
    found: &mut Findings,
) -> Result<(), NoMemory>
    ensures { OnOk result (Adds (steps.Answered world.now class.now method.now (steps.at_receiver world.now class.now method.now)) found.old found.new) }
{
    match world.resolve(class, method) {
        Resolution::Target(_, _) => Ok(()),
        Resolution::Abstract => Ok(()),
        Resolution::Missing => tell_missing_if_present(alloc, world, class, method, found),
    }
}

fn tell_abstract_if_present(
    alloc: Global,
    world: &World,
    class: &ClassName,
    method: &MethodName,
    found: &mut Findings,
) -> Result<(), NoMemory>
    ensures { OnOk result (Adds (λ x. IsPresent world.now class.now × Just (tells (abstract_target (rules.public_member class.now method.now))) x) found.old found.new) }
{
    match world.class(class) {
        Some(_) => tell_no_body(alloc, class, method, found),
        None => Ok(()),
    }
}

fn tell_missing_if_present(
    alloc: Global,
    world: &World,
    class: &ClassName,
    method: &MethodName,
    found: &mut Findings,
) -> Result<(), NoMemory>
    ensures { OnOk result (Adds (steps.if_missing world.now class.now method.now) found.old found.new) }
{
    match world.class(class) {
        Some(_) => tell_missing(alloc, class, method, found),
        None => Ok(()),
    }
}

fn tell_missing(
    alloc: Global,
    class: &ClassName,
    method: &MethodName,
    found: &mut Findings,
) -> Result<(), NoMemory>
    ensures { OnOk result (Adds (Just (tells (missing_method (rules.public_member class.now method.now)))) found.old found.new) }
{
    let member = public_member(class, method)?;
    found.tell_missing_method(alloc, &member)
}

/// The public method of the class has no body.
pub fn tell_no_body(
    alloc: Global,
    class: &ClassName,
    method: &MethodName,
    found: &mut Findings,
) -> Result<(), NoMemory>
    ensures { OnOk result (Adds (Just (tells (abstract_target (rules.public_member class.now method.now)))) found.old found.new) }
{
    let member = public_member(class, method)?;
    found.tell_abstract_target(alloc, &member)
}

/// The body of the public method of the class is needed.
pub fn need_body(
    owner: &ClassName,
    method: &MethodName,
    found: &mut Findings,
) -> Result<(), NoMemory>
    ensures { OnOk result (Adds (Just (follows (Fact.Body (rules.public_member owner.now method.now)))) found.old found.new) }
{
    let member = public_member(owner, method)?;
    found.add_body(member)
}
