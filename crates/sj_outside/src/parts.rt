// What folders in memory hold: a tree of names.
ghost use Rattle.std.specs.Prelude.{◌≡◌, IfOk, map, option_map};
ghost use Rattle.std.specs.List.{list_any};
ghost use Rattle.sj_outside.specs.Contents.{entries_of, entry_name, entry_of, is_new, is_same_text, held_at, held_under, part_named};
ghost use Rattle.sj_outside.specs.View.{found_view, part_view, parts_view};

use crate::Entry;
use crate::names::is_name;
use sj_names::{Bytes, NoMemory, Text};
use std::alloc::Global;

/// One part of a folder.
#[derive(Drop)]
pub enum Part {
    File(Text, Bytes),
    Folder(Text, Vec<Part>),
}

/// What a path leads to.
#[derive(Clone, Copy)]
pub enum Found<'a> {
    File(&'a Bytes),
    Folder(&'a [Part]),
}

impl Part {
    fn name(&self) -> &Text
        ensures { result.now ≡ (part_view self.now).0 }
    {
        match self {
            Part::File(name, _) => name,
            Part::Folder(name, _) => name,
        }
    }

    fn entry(&self) -> Result<Entry, NoMemory>
        ensures { IfOk result (λ e. e ≡ entry_of (part_view self.now).0 (part_view self.now).1) }
    {
        let name = self.name().copied()?;
        let is_folder = matches!(self, Part::Folder(_, _));
        Ok(Entry { name, is_folder })
    }

    fn found(&self) -> Found<'_>
        ensures { found_view result ≡ (part_view self.now).1 }
    {
        match self {
            Part::File(_, bytes) => Found::File(bytes),
            Part::Folder(_, parts) => Found::Folder(parts),
        }
    }
}

#[tactic(auto, using(std::proofs::lemmas::Grind::common_steps, crate::proofs::Fronts::fronts))]
fn part_named<'a>(parts: &'a [Part], name: &str) -> Option<Found<'a>>
    ensures { option_map found_view result ≡ part_named name.now (parts_view parts.now) }
{
    for part in parts {
        if part.name().as_str() == name {
            return Some(part.found());
        }
    }
    None
}

fn found_under<'a>(found: Found<'a>, name: &str) -> Option<Found<'a>>
    ensures { option_map found_view result ≡ held_under name.now (found_view found.entry) }
{
    match found {
        Found::File(_) => None,
        Found::Folder(parts) => {
            if name.is_empty() {
                Some(found)
            } else {
                part_named(parts, name)
            }
        }
    }
}

/// Whether `name` is a name that none of the parts has.
#[tactic(auto, using(std::proofs::lemmas::Grind::common_steps, crate::proofs::Fronts::fronts))]
pub fn is_new(parts: &[Part], name: &str) -> bool
    ensures { result ≡ is_new name.now (parts_view parts.now) }
{
    is_name(name.as_bytes()) && !has_name(parts, name)
}

#[tactic(auto, using(std::proofs::lemmas::Grind::common_steps, crate::proofs::Fronts::fronts))]
fn has_name(parts: &[Part], name: &str) -> bool
    ensures { result ≡ list_any (is_same_text name.now) (map entry_name (entries_of (parts_view parts.now))) }
{
    for part in parts {
        if name == part.name().as_str() {
            return true;
        }
    }
    false
}

/// What is held at `path`.
pub fn found_at<'a>(parts: &'a [Part], path: &str) -> Option<Found<'a>>
    ensures { option_map found_view result ≡ held_at (parts_view parts.now) path.now }
{
    let mut found = Found::Folder(parts);
    for name in path.split('/') {
        found = found_under(found, name)?;
    }
    Some(found)
}

/// How `parts` are listed, where each folder has names, each of them once.
#[tactic(auto, using(std::proofs::lemmas::Grind::common_steps, crate::proofs::Fronts::fronts))]
pub fn entries(alloc: Global, parts: &[Part]) -> Result<Vec<Entry>, NoMemory>
    ensures { IfOk result (λ v. v.items ≡ entries_of (parts_view parts.now)) }
{
    let mut entries = Vec::new(alloc);
    for part in parts {
        entries.push(part.entry()?)?;
    }
    Ok(entries)
}
