// The bodies that are needed, in the order in which they are checked.
ghost use Rattle.std.specs.Prelude.{◌≡◌, IfOk, OnOk};
ghost use Rattle.folder_judging.specs.Bodies.{AreInOrder, AreBodiesOf, PushesBody};

use sj_names::{Member, NoMemory, Text};
use sj_reach::spelled_member;
use sj_world::Fact;
use std::alloc::Global;

/// A member whose body is needed, and its spelling.
#[derive(Drop)]
pub struct SpelledBody<'w> {
    pub member: &'w Member,
    pub spelled: Text,
}

/// The bodies among the facts, in the order of the bytes of their members' spellings.
pub fn bodies_in_order<'w>(
    alloc: Global,
    facts: &'w [Fact],
) -> Result<Vec<SpelledBody<'w>>, NoMemory>
    ensures { IfOk result (λ bodies. AreInOrder facts.now bodies.items) }
{
    let mut bodies = spelled_bodies(alloc, facts)?;
    bodies.sort_by(|one, other| one.spelled.cmp(&other.spelled))?;
    Ok(bodies)
}

fn spelled_bodies<'w>(alloc: Global, facts: &'w [Fact]) -> Result<Vec<SpelledBody<'w>>, NoMemory>
    ensures { IfOk result (λ bodies. AreBodiesOf facts.now bodies.items) }
{
    let mut bodies = Vec::new(alloc);
    for fact in facts {
        push_body(alloc, &mut bodies, fact)?;
    }
    Ok(bodies)
}

fn push_body<'w>(
    alloc: Global,
    bodies: &mut Vec<SpelledBody<'w>>,
    fact: &'w Fact,
) -> Result<(), NoMemory>
    ensures { OnOk result (PushesBody fact.now bodies.old.items bodies.new.items) }
{
    if let Fact::Body(member) = fact {
        let spelled = spelled_member(alloc, member)?;
        bodies.push(SpelledBody { member, spelled })?;
    }
    Ok(())
}
