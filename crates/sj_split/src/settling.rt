// The homes of classes.
ghost use Rattle.std.specs.Prelude.{IfOk, Some, map};
ghost use Rattle.number_graphs.specs.Graphs.{At};
ghost use Rattle.class_numbers.specs.Numbering.{IsNumbering};
ghost use Rattle.sj_split.specs.Homes.{AreHomes};
ghost use Rattle.sj_split.specs.Modules.{AreIds};
ghost use Rattle.sj_split.specs.Walks.{References};
ghost use Rattle.sj_split.specs.Steps.{entry_class, AreReached, AreSettled, IsLeastHome, IsNumbered, AreInside};

use crate::Style;
use crate::components::{least_classes, least_of_component};
use crate::homes::{Home, Settled};
use crate::tags::{homes_of_components, reaches};
use crate::walks::reached;
use class_numbers::ClassNumbers;
use number_graphs::{Components, condensed, find_components};
use sj_graph::Reference;
use sj_names::{ClassName, EntryPoint, NoMemory, Text};
use std::alloc::Global;

/// The classes that some public module reaches, each with its home.
pub fn homes(
    alloc: Global,
    references: &[Reference],
    entries: &[EntryPoint],
    ids: &[Text],
    style: Style,
) -> Result<Vec<Settled>, NoMemory>
    requires { AreIds entries.now ids.now }
    ensures { IfOk result (λ homes. AreHomes references.now entries.now style homes.items) }
{
    let numbers = ClassNumbers::new(alloc, references, entries)?;
    let classes = reached(alloc, &numbers, entries)?;
    match style {
        Style::Fewest => {
            let homes = homes_by_tags(alloc, &numbers, entries, ids, &classes)?;
            Ok(homes)
        }
        Style::Smallest => {
            let homes = homes_by_components(alloc, &numbers, &classes)?;
            Ok(homes)
        }
    }
}

// The homes of classes by their tags.
fn homes_by_tags(
    alloc: Global,
    numbers: &ClassNumbers,
    entries: &[EntryPoint],
    ids: &[Text],
    classes: &[ClassName],
) -> Result<Vec<Settled>, NoMemory>
    requires ids { AreIds entries.now ids.now }
    requires numbered { IsNumbered numbers.now }
    requires entries { AreInside (map entry_class entries.now) numbers.now }
    requires inside { AreInside classes.now numbers.now }
    requires reached { (references : References) → IsNumbering references numbers.now → AreReached references entries.now classes.now }
    ensures { IfOk result (λ homes. (references : References) → IsNumbering references numbers.now → AreHomes references entries.now Style.Fewest homes.items) }
{
    let components = find_components(alloc, numbers.next())?;
    let graph = condensed(alloc, numbers.next(), &components)?;
    let reaches = reaches(alloc, numbers, &components, &graph, entries, ids)?;
    let by_component = homes_of_components(alloc, &reaches, components.firsts.len())?;
    let mut homes = Vec::new(alloc);
    for class in classes {
        let home = home_of(&by_component, components.of[numbers.number_of(class)])?;
        let class = class.copied()?;
        homes.push(Settled { class, home })?;
    }
    Ok(homes)
}

// The home of a component that has one.
fn home_of(homes: &[Option<Home>], component: usize) -> Result<Home, NoMemory>
    requires { (home : Home) × At homes.now component (Some home) }
    ensures { IfOk result (λ home. At homes.now component (Some home)) }
{
    match &homes[component] {
        Some(home) => home.copied(),
        None => unreachable!(),
    }
}

// The homes of classes by their components.
fn homes_by_components(
    alloc: Global,
    numbers: &ClassNumbers,
    classes: &[ClassName],
) -> Result<Vec<Settled>, NoMemory>
    requires numbered { IsNumbered numbers.now }
    requires inside { AreInside classes.now numbers.now }
    ensures { IfOk result (λ homes. (references : References) → IsNumbering references numbers.now → AreSettled (IsLeastHome references) classes.now homes.items) }
{
    let Components { of, firsts } = find_components(alloc, numbers.next())?;
    let least = least_classes(numbers, &of, firsts);
    let mut homes = Vec::new(alloc);
    for class in classes {
        let least = least_of_component(numbers, &of, &least, class);
        let home = Home::Internal(Text::from_str(alloc, least.text())?);
        let class = class.copied()?;
        homes.push(Settled { class, home })?;
    }
    Ok(homes)
}
