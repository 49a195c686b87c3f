// Homes by tags.
ghost use Rattle.std.specs.Prelude.{◌≡◌, ◌∷◌, ◌<◌, IfOk, length, map, Contains};
ghost use Rattle.std.specs.List.{join_with_byte};
ghost use Rattle.sj_split.specs.Homes.{home_of_tags};
ghost use Rattle.sj_split.specs.Steps.{entry_class, tags_in, AreReaches, AreHomesByTags, AreInside, AreCondensed, IsNumbered};

use crate::homes::Home;
use crate::walks::reached_by;
use class_numbers::ClassNumbers;
use number_graphs::Components;
use sj_names::{EntryPoint, NoMemory, Text};
use std::alloc::Global;

/// A public module, and for each component whether the module reaches its classes.
#[derive(Drop)]
pub struct Reach {
    pub id: Text,
    pub marks: Vec<bool>,
}

/// What each public module reaches.
pub fn reaches(
    alloc: Global,
    numbers: &ClassNumbers,
    components: &Components,
    graph: &[Vec<usize>],
    entries: &[EntryPoint],
    ids: &[Text],
) -> Result<Vec<Reach>, NoMemory>
    requires numbered { IsNumbered numbers.now }
    requires inside { AreInside (map entry_class entries.now) numbers.now }
    requires condensed { AreCondensed numbers.now components.now graph.now }
    ensures { IfOk result (λ reaches. AreReaches entries.now numbers.now components.now ids.now reaches.items) }
{
    let mut reaches = Vec::new(alloc);
    for id in ids {
        let marks = reached_by(alloc, numbers, components, graph, entries, id)?;
        reaches.push(Reach {
            id: id.copied()?,
            marks,
        })?;
    }
    Ok(reaches)
}

/// The homes of so many components, by the ids of the modules that reach their classes; a component that none reaches has none.
pub fn homes_of_components(
    alloc: Global,
    reaches: &[Reach],
    count: usize,
) -> Result<Vec<Option<Home>>, NoMemory>
    requires { (reach : Reach) → Contains reaches.now reach → length reach.marks.items ≡ count }
    ensures { IfOk result (λ homes. AreHomesByTags reaches.now count homes.items) }
{
    let mut homes = Vec::new(alloc);
    for component in 0..count {
        let tags = tags(alloc, reaches, component)?;
        homes.push(home_of_tags(alloc, &tags)?)?;
    }
    Ok(homes)
}

// The ids of the modules that reach the classes of this component.
fn tags(alloc: Global, reaches: &[Reach], component: usize) -> Result<Vec<Text>, NoMemory>
    requires { (reach : Reach) → Contains reaches.now reach → component < length reach.marks.items }
    ensures { IfOk result (λ tags. tags.items ≡ tags_in component reaches.now) }
{
    let mut tags = Vec::new(alloc);
    for reach in reaches {
        if reach.marks[component] {
            tags.push(reach.id.copied()?)?;
        }
    }
    Ok(tags)
}

// The module of the classes with these tags.
fn home_of_tags(alloc: Global, tags: &[Text]) -> Result<Option<Home>, NoMemory>
    ensures { IfOk result (λ home. home ≡ home_of_tags tags.now) }
{
    match tags {
        [] => Ok(None),
        [id] => Ok(Some(Home::Public(id.copied()?))),
        [id, others @ ..] => Ok(Some(Home::Internal(joined(alloc, id, others)?))),
    }
}

// The ids, joined by one space.
fn joined(alloc: Global, id: &Text, others: &[Text]) -> Result<Text, NoMemory>
    ensures { IfOk result (λ key. key ≡ join_with_byte 32 (id.now ∷ others.now)) }
{
    let mut key = String::from_str(alloc, id.as_str())?;
    for other in others {
        key.push_str(" ")?;
        key.push_str(other.as_str())?;
    }
    Ok(Text::from_string(key)?)
}
