// The path of a search for components.
//
// The path is made of groups, whose numbers lead to each other. A pending reference of the last group leads to a number that is settled
// already, to one on the path, so that the groups from there on are one, or to a new one, which is the next group. A last group without
// pending references is a component.
ghost use Rattle.std.specs.Prelude.{◌≡◌, ◌↔◌, ◌+◌, ◌-◌, ◌++◌, ◌∷◌, ◌<◌, ◌≤◌, [], ℕ, IfOk, OnOk, length};
ghost use Rattle.number_graphs.specs.Graphs.{Lists, At, IsGraph, AreComponents};
ghost use Rattle.number_graphs.specs.Searching.{IsRight, IsSearch, IsLast, IsEntered, IsLeft, IsNearer, StaysKnown, IsKnownNumber, IsWithin, AreRead, JoinedGroups, AreMarked, open_things};

use crate::Components;
use sj_names::NoMemory;
use std::alloc::Global;

/// What is known of a number.
#[derive(Clone, Copy, Drop)]
pub enum Found {
    /// Nothing.
    Not,
    /// It is on the path, at this place.
    OnPath(usize),
    /// It is in this component.
    Within(usize),
}

/// The places at which the members and the pending references of a group begin.
#[derive(Clone, Copy, Drop)]
pub struct Group {
    pub members: usize,
    pub pending: usize,
}

/// A search for components.
#[derive(Drop)]
pub struct Search {
    found: Vec<Found>,
    members: Vec<usize>,
    pending: Vec<usize>,
    groups: Vec<Group>,
    firsts: Vec<usize>,
}

impl Search {
    /// A search in a graph of so many numbers.
    pub fn new(alloc: Global, count: usize) -> Result<Search, NoMemory>
        ensures right { IfOk result (λ search. (next : Lists) → length next ≡ count → IsRight next search) }
        ensures none_open { IfOk result (λ search. search.groups.items ≡ []) }
    {
        Ok(Search {
            found: unknown(alloc, count)?,
            members: Vec::new(alloc),
            pending: Vec::new(alloc),
            groups: Vec::new(alloc),
            firsts: Vec::new(alloc),
        })
    }

    /// Finds the component of `number`, and those of all to which it leads.
    pub fn explore(&mut self, next: &[Vec<usize>], number: usize) -> Result<(), NoMemory>
        requires graph { IsGraph next.now }
        requires right { IsRight next.now self.now }
        requires none_open { self.now.groups.items ≡ [] }
        requires number { number < length next.now }
        ensures right { OnOk result (IsRight next.now self.new) }
        ensures none_open { OnOk result (self.new.groups.items ≡ []) }
        ensures still_known { OnOk result (StaysKnown self.old self.new) }
        ensures known { OnOk result (IsKnownNumber self.new number) }
    {
        if let Found::Not = self.found[number] {
            self.enter(next, number)?;
            self.finish(next)
        } else {
            Ok(())
        }
    }

    // Goes on until nothing is open.
    fn finish(&mut self, next: &[Vec<usize>]) -> Result<(), NoMemory>
        requires graph { IsGraph next.now }
        requires right { IsRight next.now self.now }
        ensures right { OnOk result (IsRight next.now self.new) }
        ensures none_open { OnOk result (self.new.groups.items ≡ []) }
        ensures still_known { OnOk result (StaysKnown self.old self.new) }
    {
        while !self.groups.is_empty() {
            self.step(next)?;
        }
        Ok(())
    }

    /// The components, once each number was explored.
    pub fn into_components(self, alloc: Global) -> Result<Components, NoMemory>
        requires none_open { self.groups.items ≡ [] }
        requires known { (number : ℕ) → IsKnownNumber self number }
        requires right { (next : Lists) × IsRight next self }
        ensures { IfOk result (λ components. (next : Lists) → IsRight next self → AreComponents next components.of.items components.firsts.items) }
    {
        let of = components_of(alloc, &self.found)?;
        let firsts = self.firsts;
        Ok(Components { of, firsts })
    }

    // Puts a number of which nothing is known at the end of the path, as a group of its own.
    fn enter(&mut self, next: &[Vec<usize>], number: usize) -> Result<(), NoMemory>
        requires unknown { At self.now.found.items number Found.Not }
        requires within { number < length next.now }
        ensures { OnOk result (IsEntered next.now number self.old self.new) }
    {
        let place = self.members.len();
        self.groups.push(Group {
            members: place,
            pending: self.pending.len(),
        })?;
        self.members.push(number)?;
        self.pending.extend_from_slice(&next[number])?;
        self.found[number] = Found::OnPath(place);
        Ok(())
    }

    // Makes the last group a component.
    fn leave(&mut self, group: Group) -> Result<(), NoMemory>
        requires first { group.members < length self.now.members.items }
        requires numbers { (place number : ℕ) → At self.now.found.items number (Found.OnPath place) ↔ At self.now.members.items place number }
        ensures { OnOk result (IsLeft group self.old self.new) }
    {
        let component = self.firsts.len();
        self.firsts.push(self.members[group.members])?;
        mark(&mut self.found, &self.members[group.members..], component);
        self.members.truncate(group.members);
        self.groups.pop();
        Ok(())
    }

    // Takes one step: looks at a pending reference of the last group, or makes this a component.
    fn step(&mut self, next: &[Vec<usize>]) -> Result<(), NoMemory>
        requires graph { IsGraph next.now }
        requires right { IsRight next.now self.now }
        requires some { 0 < length self.now.groups.items }
        ensures right { OnOk result (IsRight next.now self.new) }
        ensures nearer { OnOk result (IsNearer (open_things self.old - 1) self.old self.new) }
    {
        let group = self.groups[self.groups.len() - 1];
        if group.pending < self.pending.len() {
            self.look_on(next, group)
        } else {
            self.leave(group)
        }
    }

    // Looks at the last pending reference.
    fn look_on(&mut self, next: &[Vec<usize>], group: Group) -> Result<(), NoMemory>
        requires graph { IsGraph next.now }
        requires right { IsRight next.now self.now }
        requires last { IsLast self.now.groups.items group }
        requires some { group.pending < length self.now.pending.items }
        ensures right { OnOk result (IsRight next.now self.new) }
        ensures nearer { OnOk result (IsNearer (open_things self.old - 1) self.old self.new) }
    {
        match self.pending.pop() {
            Some(number) => self.look_at(next, group, number),
            None => Ok(()),
        }
    }

    // Looks at a number to which the last group leads.
    fn look_at(&mut self, next: &[Vec<usize>], group: Group, number: usize) -> Result<(), NoMemory>
        requires graph { IsGraph next.now }
        requires right { IsSearch next.now self.now.found.items self.now.members.items (self.now.pending.items ++ number ∷ []) self.now.groups.items self.now.firsts.items }
        requires last { IsLast self.now.groups.items group }
        requires of_group { group.pending ≤ length self.now.pending.items }
        ensures right { OnOk result (IsRight next.now self.new) }
        ensures nearer { OnOk result (IsNearer (open_things self.old) self.old self.new) }
    {
        match self.found[number] {
            Found::Not => self.enter(next, number),
            Found::OnPath(place) => {
                join(&mut self.groups, place);
                Ok(())
            }
            Found::Within(_) => Ok(()),
        }
    }
}

// Joins the groups from the one with the member at `place` on.
fn join(groups: &mut Vec<Group>, place: usize)
    ensures joined { JoinedGroups place groups.old.items groups.new.items }
    ensures fewer { length groups.new.items ≤ length groups.old.items }
{
    while let Some(group) = groups.last() {
        if group.members <= place {
            break;
        }
        groups.pop();
    }
}

// Notes the component of these members.
fn mark(found: &mut [Found], members: &[usize], component: usize)
    requires { (place number : ℕ) → At members.now place number → number < length found.now }
    ensures { (from : ℕ) → ((place number : ℕ) → At found.old number (Found.OnPath (from + place)) ↔ At members.now place number) → AreMarked component from (from + length members.now) found.old found.new }
{
    for member in members {
        found[*member] = Found::Within(component);
    }
}

// Nothing is known of so many numbers.
fn unknown(alloc: Global, count: usize) -> Result<Vec<Found>, NoMemory>
    ensures count { IfOk result (λ found. length found.items ≡ count) }
    ensures unknown { IfOk result (λ found. (number : ℕ) (x : Found) → At found.items number x → x ≡ Found.Not) }
{
    let mut found = Vec::new(alloc);
    for _ in 0..count {
        found.push(Found::Not)?;
    }
    Ok(found)
}

// The components of numbers, each of which is in one.
fn components_of(alloc: Global, found: &[Found]) -> Result<Vec<usize>, NoMemory>
    requires { (number : ℕ) (x : Found) → At found.now number x → IsWithin x }
    ensures { IfOk result (λ of. AreRead found.now of.items) }
{
    let mut of = Vec::new(alloc);
    for one in found {
        match one {
            Found::Within(component) => of.push(*component)?,
            Found::Not | Found::OnPath(_) => unreachable!(),
        }
    }
    Ok(of)
}
