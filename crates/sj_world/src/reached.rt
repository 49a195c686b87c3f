// What is reachable.
ghost use Rattle.std.specs.Prelude.{◌≡◌, ◌↔◌, IfOk, IsTrue, Contains};

use crate::Fact;
use crate::facts::{bodies_of, has_member};
use indexmap::IndexSet;
use sj_names::{Member, NoMemory};
use std::alloc::Global;
use std::marker::Model;

/// The facts that are reachable, each once. A contract sees the list of them.
#[derive(Drop)]
pub struct Reached {
    facts: IndexSet<Fact>,
    bodies: IndexSet<Member>,
}

impl Model for Reached {
    ghost use Rattle.std.specs.Prelude.{List};
    ghost use Rattle.sj_world.specs.declared.facts.Fact.{Fact};

    ghost Value = { List Fact };

    ghost use Rattle.sj_world.specs.Facts.{AreBodies};

    ghost view = { λ r. r.facts.keys };

    ghost invariant = { λ r. AreBodies r.facts.keys r.bodies.keys };
}

impl Reached {
    /// These facts. `NoMemory` alone is an error.
    pub fn of(alloc: Global, facts: IndexSet<Fact>) -> Result<Reached, NoMemory>
        ensures { IfOk result (λ r. r ≡ facts.keys) }
    {
        let bodies = bodies_of(alloc, facts.as_slice())?;
        Ok(Reached { facts, bodies })
    }

    /// The facts, in the order in which they were found.
    pub fn facts(&self) -> &[Fact]
        ensures { result.now ≡ self.now }
    {
        self.facts.as_slice()
    }

    /// Whether the body of the member is needed. It takes no memory.
    pub fn has_body(&self, member: &Member) -> bool
        ensures { IsTrue result ↔ Contains self.now (Fact.Body member.now) }
    {
        has_member(&self.bodies, member)
    }
}
