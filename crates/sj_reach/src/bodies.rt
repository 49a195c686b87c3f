// What follows from a body that is needed.
ghost use Rattle.std.specs.Prelude.{◌≡◌, OnOk};
ghost use Rattle.sj_names.specs.WellKnown.{hijacked as the_hijacked};
ghost use Rattle.sj_infos.specs.Infos.{asked_by};
ghost use Rattle.sj_reach.specs.Conclusions.{Adds, Among};
ghost use Rattle.sj_reach.specs.Seen.{SeesBody, SeesInfos};
ghost use Rattle.sj_reach.specs.Steps as steps;

use crate::findings::Findings;
use crate::infos::go_through_info;
use crate::seen::Seen;
use sj_infos::{Info, infos_of};
use sj_names::{ClassName, Member, NoMemory};
use sj_trees::MethodDef;
use sj_world::{World, method_in};
use std::alloc::Global;

/// The body of the member is needed.
pub fn go_through_body(
    alloc: Global,
    world: &World,
    member: &Member,
    seen: &mut Seen,
    hijacked: &[ClassName],
    found: &mut Findings,
) -> Result<(), NoMemory>
    requires { hijacked.now ≡ the_hijacked }
    ensures found { OnOk result (Adds (steps.OfBody world.now seen.old member.now) found.old found.new) }
    ensures seen { OnOk result (SeesBody world.now member.now seen.old seen.new) }
{
    let Some(class) = world.class(&member.class) else {
        return Ok(());
    };
    match method_in(class.methods.as_slice(), member) {
        Some(method) => go_through_method(alloc, world, method, seen, hijacked, found),
        None => Ok(()),
    }
}

fn go_through_method(
    alloc: Global,
    world: &World,
    method: &MethodDef,
    seen: &mut Seen,
    hijacked: &[ClassName],
    found: &mut Findings,
) -> Result<(), NoMemory>
    requires { hijacked.now ≡ the_hijacked }
    ensures found { OnOk result (Adds (Among (asked_by method.now) (steps.OfSeenInfo world.now seen.old)) found.old found.new) }
    ensures seen { OnOk result (SeesInfos (asked_by method.now) seen.old seen.new) }
{
    let infos = infos_of(alloc, method)?;
    go_through_infos(alloc, world, infos.as_slice(), seen, hijacked, found)?;
    seen.see_infos(infos.as_slice())
}

fn go_through_infos(
    alloc: Global,
    world: &World,
    infos: &[Info],
    seen: &Seen,
    hijacked: &[ClassName],
    found: &mut Findings,
) -> Result<(), NoMemory>
    requires { hijacked.now ≡ the_hijacked }
    ensures { OnOk result (Adds (Among infos.now (steps.OfSeenInfo world.now seen.now)) found.old found.new) }
{
    for info in infos {
        go_through_info(alloc, world, info, seen, hijacked, found)?;
    }
    Ok(())
}
