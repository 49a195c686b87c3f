// A world with what is known of its classes.
ghost use Rattle.std.specs.Prelude.{◌≡◌, ◌↔◌, ◌++◌, map, IfOk, OnOk, IsTrue, MatchResult, Contains};
ghost use Rattle.sj_world.specs.Facts.{IsMadeBelow};
ghost use Rattle.sj_world.specs.Known.{Name};
ghost use Rattle.sj_world.specs.Refusals.{IsRefused};
ghost use Rattle.sj_world.specs.Linked as linked;

use crate::below::made_below;
use crate::facts::{bodies_of, has_member};
use crate::{Fact, Reached, World, WorldError};
use class_lists::Lists;
use indexmap::IndexSet;
use sj_names::{ClassName, Member, MethodName, NoMemory};
use sj_trees::ClassDef;
use std::alloc::Global;
use std::marker::Model;

/// A name under which instances of a class have a method, and the method that it stands for.
#[derive(PartialEq, Eq, Hash, Drop)]
pub struct MethodEntry {
    pub class: ClassName,
    pub name: MethodName,
    pub target: Member,
}

/// A world with the facts that are known of it and its method entries.
#[derive(Drop)]
pub struct LinkedWorld {
    world: World,
    facts: Vec<Fact>,
    entries: Vec<MethodEntry>,
    bodies: IndexSet<Member>,
    below: Lists<ClassName>,
}

impl Model for LinkedWorld {
    ghost use Rattle.sj_world.specs.Linked.{Linked, linked_code};

    ghost Value = { Linked };

    ghost coded = { linked_code };

    ghost use Rattle.sj_world.specs.Facts.{AreKept};

    ghost view = { λ l. record { world = l.world; facts = l.facts.items; entries = l.entries.items } };

    ghost invariant = { λ l. AreKept l.world l.facts.items l.bodies.keys l.below };
}

impl LinkedWorld {
    /// The world of these classes, in which instances of the classes `made` are made and `bodies` are needed, with no entries. It is
    /// refused as `World::new` refuses the classes.
    pub fn new(
        alloc: Global,
        classes: Vec<ClassDef>,
        made: Vec<ClassName>,
        bodies: Vec<Member>,
    ) -> Result<LinkedWorld, WorldError>
        ensures { MatchResult result (linked.IsLinkedWorldOf classes.items made.items bodies.items) (IsRefused classes.items) }
    {
        let world = World::new(alloc, classes)?;
        let facts = facts_of(alloc, made, bodies)?;
        Ok(LinkedWorld::of(alloc, world, facts, Vec::new(alloc))?)
    }

    /// The world `w` with the facts of `r` and these entries. It shares the classes of `w`. `NoMemory` alone is an error.
    pub fn linked(
        alloc: Global,
        w: &World,
        r: &Reached,
        entries: Vec<MethodEntry>,
    ) -> Result<LinkedWorld, NoMemory>
        ensures { IfOk result (λ l. l ≡ record { world = w.now; facts = r.now; entries = entries.items }) }
    {
        let facts = copied_facts(alloc, r.facts())?;
        let world = w.copied()?;
        LinkedWorld::of(alloc, world, facts, entries)
    }

    fn of(
        alloc: Global,
        world: World,
        facts: Vec<Fact>,
        entries: Vec<MethodEntry>,
    ) -> Result<LinkedWorld, NoMemory>
        ensures { IfOk result (λ l. l ≡ record { world = world; facts = facts.items; entries = entries.items }) }
    {
        let bodies = bodies_of(alloc, &facts)?;
        let below = made_below(alloc, &world, &facts)?;
        Ok(LinkedWorld {
            world,
            facts,
            entries,
            bodies,
            below,
        })
    }

    /// The world.
    pub fn world(&self) -> &World
        ensures { result.now ≡ self.now.world }
    {
        &self.world
    }

    /// What is known of the classes.
    pub fn facts(&self) -> &[Fact]
        ensures { result.now ≡ self.now.facts }
    {
        &self.facts
    }

    /// The method entries.
    pub fn entries(&self) -> &[MethodEntry]
        ensures { result.now ≡ self.now.entries }
    {
        &self.entries
    }

    /// The classes below this one of which instances are made. It takes no memory.
    pub fn made_below(&self, class: &ClassName) -> &[ClassName]
        ensures { (d : Name) → Contains result.now d ↔ IsMadeBelow self.now.world self.now.facts class.now d }
    {
        self.below.at(class)
    }

    /// Whether the body of the member is needed. It takes no memory.
    pub fn has_body(&self, member: &Member) -> bool
        ensures { IsTrue result ↔ Contains self.now.facts (Fact.Body member.now) }
    {
        has_member(&self.bodies, member)
    }
}

fn copied_facts(alloc: Global, facts: &[Fact]) -> Result<Vec<Fact>, NoMemory>
    ensures { IfOk result (λ copies. copies.items ≡ facts.now) }
{
    let mut copies = Vec::new(alloc);
    for fact in facts {
        copies.push(fact.copied()?)?;
    }
    Ok(copies)
}

fn facts_of(alloc: Global, made: Vec<ClassName>, bodies: Vec<Member>) -> Result<Vec<Fact>, NoMemory>
    ensures { IfOk result (λ facts. facts.items ≡ linked.facts_of made.items bodies.items) }
{
    let mut facts = Vec::new(alloc);
    put_made(&mut facts, made)?;
    put_bodies(&mut facts, bodies)?;
    Ok(facts)
}

fn put_made(facts: &mut Vec<Fact>, made: Vec<ClassName>) -> Result<(), NoMemory>
    ensures { OnOk result (facts.new.items ≡ facts.old.items ++ map Fact.Made made.items) }
{
    for class in made {
        facts.push(Fact::Made(class))?;
    }
    Ok(())
}

fn put_bodies(facts: &mut Vec<Fact>, bodies: Vec<Member>) -> Result<(), NoMemory>
    ensures { OnOk result (facts.new.items ≡ facts.old.items ++ map Fact.Body bodies.items) }
{
    for body in bodies {
        facts.push(Fact::Body(body))?;
    }
    Ok(())
}
