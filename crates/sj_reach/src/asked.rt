// Members that are asked for as they stand in their class.
ghost use Rattle.std.specs.Prelude.{OnOk};
ghost use Rattle.sj_reach.specs.Conclusions.{Adds};
ghost use Rattle.sj_reach.specs.Steps as steps;

use crate::findings::Findings;
use sj_names::{Member, NoMemory};
use sj_world::{World, method_in};
use std::alloc::Global;

/// The member is a body, and is told where its class is there and gives it none.
pub fn ask_for(
    alloc: Global,
    world: &World,
    member: Member,
    found: &mut Findings,
) -> Result<(), NoMemory>
    ensures { OnOk result (Adds (steps.OfAsked world.now member) found.old found.new) }
{
    tell_of_member(alloc, world, &member, found)?;
    found.add_body(member)
}

fn tell_of_member(
    alloc: Global,
    world: &World,
    member: &Member,
    found: &mut Findings,
) -> Result<(), NoMemory>
    ensures { OnOk result (Adds (steps.OfMember world.now member.now) found.old found.new) }
{
    let Some(class) = world.class(&member.class) else {
        return Ok(());
    };
    match method_in(class.methods.as_slice(), member) {
        Some(method) if method.body.is_none() => found.tell_abstract_target(alloc, member),
        Some(_) => Ok(()),
        None => found.tell_missing_method(alloc, member),
    }
}
