// The members whose bodies are needed.
ghost use Rattle.std.specs.Prelude.{◌≡◌, ◌++◌, ◌∷◌, [], IfOk, OnOk, map};
ghost use Rattle.folder_judging.specs.Counts.{members_of};

use sj_names::{Member, NoMemory};
use sj_world::Fact;
use std::alloc::Global;

/// The members whose bodies are needed, in the order of the facts.
pub fn needed_members<'w>(alloc: Global, facts: &'w [Fact]) -> Result<Vec<&'w Member>, NoMemory>
    ensures { IfOk result (λ members. map (λ m. m.now) members.items ≡ members_of facts.now) }
{
    let mut members = Vec::new(alloc);
    for fact in facts {
        add_member(fact, &mut members)?;
    }
    Ok(members)
}

fn add_member<'w>(fact: &'w Fact, members: &mut Vec<&'w Member>) -> Result<(), NoMemory>
    ensures { OnOk result (map (λ m. m.now) members.new.items ≡ map (λ m. m.now) members.old.items ++ members_of (fact.now ∷ [])) }
{
    if let Fact::Body(member) = fact {
        members.push(member)?;
    }
    Ok(())
}
