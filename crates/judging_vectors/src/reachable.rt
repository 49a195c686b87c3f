// What is reachable.
use crate::texts::{add, add_field, add_member, add_method, add_refusal, entries_in};
use sj_baselink::base_link;
use sj_names::{ClassName, Member, MethodName, NameError};
use sj_reach::{ReachError, reach};
use sj_world::{Fact, LinkedWorld, MethodEntry, Reached, World};
use std::alloc::Global;

/// Adds the answer to `entries`: `refused CODE PLACE`, or `reached` and in order of their bytes the lines of the facts, `needed CLASS`, `made CLASS`,
/// `cell CLASS`, `field CLASS NAME STATIC`, `body MEMBER` and `called CLASS METHOD`, and those of the method entries, `entry CLASS METHOD MEMBER`, and for
/// reflective names `proxy CLASS METHOD TARGET`.
pub(crate) fn add_answer(
    alloc: Global,
    world: &World,
    entries: &str,
    text: &mut String,
) -> Result<(), NameError> {
    match entries_in(alloc, entries) {
        Some(entries) => add_reached(alloc, world, &reach(alloc, world, &entries), text),
        None => add(&["no entries\n"], text),
    }
}

/// Adds the answer to `resolves`: `some`, where anything is reachable and nothing is refused.
pub(crate) fn add_whether_any(
    alloc: Global,
    world: &World,
    entries: &str,
    text: &mut String,
) -> Result<(), NameError> {
    let mut answer = String::new(alloc);
    add_answer(alloc, world, entries, &mut answer)?;
    let is_any = answer.as_str().starts_with("reached\n") && answer.len() > 8;
    add(&[if is_any { "some\n" } else { "none\n" }], text)
}

fn add_reached(
    alloc: Global,
    world: &World,
    answer: &Result<Reached, ReachError>,
    text: &mut String,
) -> Result<(), NameError> {
    match answer {
        Ok(reached) => add_linked(alloc, world, reached, text),
        Err(ReachError::Refused { code, place }) => add_refusal(alloc, *code, place.as_str(), text),
        Err(ReachError::NoMemory) => add(&["no memory\n"], text),
    }
}

fn add_linked(
    alloc: Global,
    world: &World,
    reached: &Reached,
    text: &mut String,
) -> Result<(), NameError> {
    match base_link(alloc, world, reached) {
        Ok(linked) => {
            add(&["reached\n"], text)?;
            add_sorted(alloc, &linked, text)
        }
        Err(_) => add(&["no memory\n"], text),
    }
}

fn add_sorted(alloc: Global, linked: &LinkedWorld, text: &mut String) -> Result<(), NameError> {
    let mut lines = String::new(alloc);
    add_facts(alloc, linked.facts(), &mut lines)?;
    add_entries(alloc, linked.entries(), &mut lines)?;
    add_lines(alloc, lines.as_str(), text)
}

// Adds the lines in the order of their bytes.
fn add_lines(alloc: Global, lines: &str, text: &mut String) -> Result<(), NameError> {
    let mut sorted = Vec::new(alloc);
    for line in lines.lines() {
        sorted.push(line)?;
    }
    sorted.sort()?;
    for line in sorted.iter() {
        add(&[*line, "\n"], text)?;
    }
    Ok(())
}

fn add_facts(alloc: Global, facts: &[Fact], text: &mut String) -> Result<(), NameError> {
    for fact in facts {
        add_fact(alloc, fact, text)?;
    }
    Ok(())
}

fn add_fact(alloc: Global, fact: &Fact, text: &mut String) -> Result<(), NameError> {
    match fact {
        Fact::Needed(class) => add(&["needed\t", class.text(), "\n"], text),
        Fact::Made(class) => add(&["made\t", class.text(), "\n"], text),
        Fact::CellUsed(class) => add(&["cell\t", class.text(), "\n"], text),
        Fact::NeededField(class, field, is_static) => {
            add(&["field\t"], text)?;
            add_field(class, field, *is_static, text)?;
            add(&["\n"], text)
        }
        Fact::Body(member) => add_body(alloc, member, text),
        Fact::Called(class, method) => add_called(alloc, class, method, text),
    }
}

fn add_body(alloc: Global, member: &Member, text: &mut String) -> Result<(), NameError> {
    add(&["body\t"], text)?;
    add_member(alloc, member, text)?;
    add(&["\n"], text)
}

fn add_called(
    alloc: Global,
    class: &ClassName,
    method: &MethodName,
    text: &mut String,
) -> Result<(), NameError> {
    add(&["called\t", class.text(), "\t"], text)?;
    add_method(alloc, method, text)?;
    add(&["\n"], text)
}

fn add_entries(alloc: Global, entries: &[MethodEntry], text: &mut String) -> Result<(), NameError> {
    for entry in entries {
        add_entry(alloc, entry, text)?;
    }
    Ok(())
}

// A method entry; of a reflective name the line has the name of the target alone.
fn add_entry(alloc: Global, entry: &MethodEntry, text: &mut String) -> Result<(), NameError> {
    let is_reflective = entry.name.result.is_none();
    add(
        &[
            if is_reflective { "proxy\t" } else { "entry\t" },
            entry.class.text(),
            "\t",
        ],
        text,
    )?;
    add_method(alloc, &entry.name, text)?;
    add(&["\t"], text)?;
    add_target(alloc, &entry.target, is_reflective, text)?;
    add(&["\n"], text)
}

fn add_target(
    alloc: Global,
    target: &Member,
    is_reflective: bool,
    text: &mut String,
) -> Result<(), NameError> {
    if is_reflective {
        add_method(alloc, &target.method, text)
    } else {
        add_member(alloc, target, text)
    }
}
