// What is reachable.
ghost use Rattle.std.specs.Prelude.{◌≡◌, [], OnOk, IfOk, MatchResult, MatchOption, option_map};
ghost use Rattle.sj_names.specs.WellKnown.{hijacked as the_hijacked};
ghost use Rattle.sj_reach.specs.Answers.{AreReachable, IsRefused, AreLeast, AllFound, IsLeastReport, comes_first, first_told};
ghost use Rattle.sj_reach.specs.Conclusions.{Adds, Among};
ghost use Rattle.sj_reach.specs.Seen.{SeesFact};
ghost use Rattle.sj_reach.specs.Steps as steps;

use crate::asked::ask_for;
use crate::bodies::go_through_body;
use crate::dispatched::{dispatch_from_above, dispatch_on_each, dispatch_on_each_below};
use crate::errors::ReachError;
use crate::findings::{Findings, Report};
use crate::infos::object_name;
use crate::members::entry_member;
use crate::needed::{go_through_needed, need_parents_of_hijacked};
use crate::reflected::reflect_each_on;
use crate::seen::Seen;
use sj_names::{ClassName, Entries, EntryPoint, MethodName, NoMemory, Text};
use sj_world::{Fact, Reached, World};
use std::alloc::Global;

/// The facts that are reachable from the entry points, each once. Where a reference that is reachable doesn't resolve, the folder is
/// refused: for the least place in the order of the bytes of its spelling, and of what is told of that place for the least code.
pub fn reach(alloc: Global, w: &World, e: &Entries) -> Result<Reached, ReachError>
    ensures { MatchResult result (AreReachable w.now e.now) (IsRefused w.now e.now) }
{
    let found = find_all(alloc, w, e.as_slice())?;
    answer(alloc, found)
}

// The facts, unless something is told.
fn answer(alloc: Global, found: Findings) -> Result<Reached, ReachError>
    ensures { MatchResult result (λ facts. (facts ≡ found.facts.keys) × (found.reports.items ≡ [])) (AreLeast found.reports.items) }
{
    match least(found.reports.as_slice()) {
        Some(report) => Err(ReachError::Refused {
            code: report.code,
            place: report.place.copied()?,
        }),
        None => Ok(Reached::of(alloc, found.facts)?),
    }
}

// All that is reachable, and all that is told of it.
fn find_all(alloc: Global, world: &World, entries: &[EntryPoint]) -> Result<Findings, NoMemory>
    ensures { IfOk result (AllFound world.now entries.now) }
{
    let hijacked = world.hijacked();
    let mut found = Findings::new(alloc);
    start(alloc, world, entries, hijacked, &mut found)?;
    let mut seen = Seen::new(alloc);
    let mut next = 0;
    while next < found.facts.len() {
        let fact = found.facts[next].copied()?;
        go_through(alloc, world, &fact, &mut seen, hijacked, &mut found)?;
        next += 1;
    }
    Ok(found)
}

// What follows from a fact, alone and together with those that were gone through before it.
fn go_through(
    alloc: Global,
    world: &World,
    fact: &Fact,
    seen: &mut Seen,
    hijacked: &[ClassName],
    found: &mut Findings,
) -> Result<(), NoMemory>
    requires { hijacked.now ≡ the_hijacked }
    ensures found { OnOk result (Adds (steps.OfFact world.now seen.old fact.now) found.old found.new) }
    ensures seen { OnOk result (SeesFact world.now fact.now seen.old seen.new) }
{
    match fact {
        Fact::Needed(class) => go_through_needed(alloc, world, class, found),
        Fact::Made(class) => go_through_made(alloc, world, class, seen, found),
        Fact::CellUsed(_) => Ok(()),
        Fact::NeededField(_, _, _) => Ok(()),
        Fact::Body(member) => go_through_body(alloc, world, member, seen, hijacked, found),
        Fact::Called(class, method) => {
            go_through_called(alloc, world, class, method, seen, hijacked, found)
        }
    }
}

fn go_through_made(
    alloc: Global,
    world: &World,
    class: &ClassName,
    seen: &mut Seen,
    found: &mut Findings,
) -> Result<(), NoMemory>
    ensures found { OnOk result (Adds (steps.OfMade world.now seen.old class.now) found.old found.new) }
    ensures seen { OnOk result (SeesFact world.now (Fact.Made class.now) seen.old seen.new) }
{
    dispatch_from_above(alloc, world, class, &seen.called, found)?;
    reflect_each_on(alloc, world, class, seen.reflective.as_slice(), found)?;
    seen.see_made(alloc, world, class)
}

fn go_through_called(
    alloc: Global,
    world: &World,
    class: &ClassName,
    method: &MethodName,
    seen: &mut Seen,
    hijacked: &[ClassName],
    found: &mut Findings,
) -> Result<(), NoMemory>
    requires { hijacked.now ≡ the_hijacked }
    ensures found { OnOk result (Adds (steps.OfCalled world.now seen.old class.now method.now) found.old found.new) }
    ensures seen { OnOk result (SeesFact world.now (Fact.Called class.now method.now) seen.old seen.new) }
{
    dispatch_on_each(alloc, world, seen.below.at(class), method, found)?;
    dispatch_on_each_below(alloc, world, class, hijacked, method, found)?;
    seen.see_called(alloc, class, method)
}

// What stands at the start.
fn start(
    alloc: Global,
    world: &World,
    entries: &[EntryPoint],
    hijacked: &[ClassName],
    found: &mut Findings,
) -> Result<(), NoMemory>
    requires { hijacked.now ≡ the_hijacked }
    ensures { OnOk result (Adds (steps.OfStart world.now entries.now) found.old found.new) }
{
    let object = object_name(alloc)?;
    found.add_needed(&object)?;
    enter_all(alloc, world, entries, found)?;
    need_parents_of_all(alloc, world, hijacked, found)
}

fn enter_all(
    alloc: Global,
    world: &World,
    entries: &[EntryPoint],
    found: &mut Findings,
) -> Result<(), NoMemory>
    ensures { OnOk result (Adds (Among entries.now (steps.OfEntry world.now)) found.old found.new) }
{
    for entry in entries {
        enter(alloc, world, entry, found)?;
    }
    Ok(())
}

// An entry point names a class and a method of it.
fn enter(
    alloc: Global,
    world: &World,
    entry: &EntryPoint,
    found: &mut Findings,
) -> Result<(), NoMemory>
    ensures { OnOk result (Adds (steps.OfEntry world.now entry.now) found.old found.new) }
{
    found.add_needed(&entry.class)?;
    let member = entry_member(alloc, entry)?;
    ask_for(alloc, world, member, found)
}

fn need_parents_of_all(
    alloc: Global,
    world: &World,
    hijacked: &[ClassName],
    found: &mut Findings,
) -> Result<(), NoMemory>
    ensures { OnOk result (Adds (Among hijacked.now (steps.OfHijacked world.now)) found.old found.new) }
{
    for class in hijacked {
        need_parents_of_hijacked(alloc, world, class, found)?;
    }
    Ok(())
}

// The least of what is told.
fn least(reports: &[Report]) -> Option<&Report>
    ensures { MatchOption result (reports.now ≡ []) (λ r. IsLeastReport reports.now r.now) }
{
    let mut least: Option<&Report> = None;
    for report in reports {
        least = Some(lesser(least, report));
    }
    least
}

// The one that is told first, the earlier one where both are told alike.
fn lesser<'r>(least: Option<&'r Report>, report: &'r Report) -> &'r Report
    ensures { result.now ≡ first_told (option_map (λ r. r.now) least.entry) report.now }
{
    match least {
        Some(other) if !comes_before(report, other) => other,
        _ => report,
    }
}

/// Whether one is told before the other: by the bytes of the place, then by the code.
pub fn comes_before(one: &Report, other: &Report) -> bool
    ensures { result ≡ comes_first one.now other.now }
{
    one.place < other.place || one.place == other.place && one.code < other.code
}
