// What walks reach.
ghost use Rattle.std.specs.Prelude.{◌≡◌, ◌↔◌, [], ℕ, true, IfOk, Contains, map, length};
ghost use Rattle.indexmap.specs.IndexSet.{insert_all};
ghost use Rattle.number_graphs.specs.Graphs.{At};
ghost use Rattle.class_numbers.specs.Numbering.{IsNumbering};
ghost use Rattle.sj_split.specs.Orders.{is_same};
ghost use Rattle.sj_split.specs.Walks.{Name, References, Reaches};
ghost use Rattle.sj_split.specs.Steps.{entry_class, first_classes, AreReached, IsNumbered, AreInside, AreNumbersOf, AreComponentsOf, AreCondensed, IsWithin, LedTo, IsMarked};

use crate::orders::each_once_in_order;
use class_numbers::ClassNumbers;
use indexmap::IndexSet;
use number_graphs::Components;
use sj_names::{ClassName, EntryPoint, NoMemory, Text};
use std::alloc::Global;

/// The classes that the initializers of the public modules lead to, in the order of their bytes.
pub fn reached(
    alloc: Global,
    numbers: &ClassNumbers,
    entries: &[EntryPoint],
) -> Result<Vec<ClassName>, NoMemory>
    requires numbered { IsNumbered numbers.now }
    requires inside { AreInside (map entry_class entries.now) numbers.now }
    ensures reached { IfOk result (λ classes. (references : References) → IsNumbering references numbers.now → AreReached references entries.now classes.items) }
    ensures inside { IfOk result (λ classes. AreInside classes.items numbers.now) }
{
    let found = entry_classes(alloc, entries)?;
    let marks = led_to(alloc, numbers, &found)?;
    Ok(each_once_in_order(marked(alloc, numbers, &marks)?))
}

// The classes of entries.
fn entry_classes(alloc: Global, entries: &[EntryPoint]) -> Result<IndexSet<ClassName>, NoMemory>
    ensures { IfOk result (λ found. found.keys ≡ insert_all is_same [] (map entry_class entries.now)) }
{
    let mut found = IndexSet::new(alloc);
    for entry in entries {
        found.insert(entry.class.copied()?)?;
    }
    Ok(found)
}

/// Whether a public module reaches the classes of each component.
pub fn reached_by(
    alloc: Global,
    numbers: &ClassNumbers,
    components: &Components,
    graph: &[Vec<usize>],
    entries: &[EntryPoint],
    id: &Text,
) -> Result<Vec<bool>, NoMemory>
    requires numbered { IsNumbered numbers.now }
    requires inside { AreInside (map entry_class entries.now) numbers.now }
    requires condensed { AreCondensed numbers.now components.now graph.now }
    ensures count { IfOk result (λ marks. length marks.items ≡ length components.now.firsts.items) }
    ensures reached { IfOk result (λ marks. (references : References) → IsNumbering references numbers.now → (component : ℕ) (class : Name) → IsWithin numbers.now.classes.keys components.now.of.items component class → At marks.items component true ↔ Reaches references entries.now id.now class) }
{
    let found = module_classes(alloc, entries, id)?;
    let starts = components_of(alloc, numbers, &components.of, &found)?;
    let marks = number_graphs::reached(alloc, graph, &starts)?;
    Ok(marks)
}

// The components of classes.
fn components_of(
    alloc: Global,
    numbers: &ClassNumbers,
    of: &[usize],
    classes: &IndexSet<ClassName>,
) -> Result<Vec<usize>, NoMemory>
    requires inside { AreInside classes.now.keys numbers.now }
    requires whole { length of.now ≡ length numbers.now.classes.keys }
    ensures { IfOk result (λ list. AreComponentsOf numbers.now.classes.keys of.now classes.now.keys list.items) }
{
    let mut list = Vec::new(alloc);
    for place in 0..classes.len() {
        list.push(of[numbers.number_of(&classes[place])])?;
    }
    Ok(list)
}

// The classes of the entries of a public module.
fn module_classes(
    alloc: Global,
    entries: &[EntryPoint],
    id: &Text,
) -> Result<IndexSet<ClassName>, NoMemory>
    ensures { IfOk result (λ found. found.keys ≡ insert_all is_same [] (first_classes id.now entries.now)) }
{
    let mut found = IndexSet::new(alloc);
    for entry in entries {
        if entry.module.is_same(id) {
            found.insert(entry.class.copied()?)?;
        }
    }
    Ok(found)
}

// Whether a walk leads to the class of each number from one of these classes.
fn led_to(
    alloc: Global,
    numbers: &ClassNumbers,
    classes: &IndexSet<ClassName>,
) -> Result<Vec<bool>, NoMemory>
    requires numbered { IsNumbered numbers.now }
    requires inside { AreInside classes.now.keys numbers.now }
    ensures count { IfOk result (λ marks. length marks.items ≡ length numbers.now.classes.keys) }
    ensures led { IfOk result (λ marks. (references : References) → IsNumbering references numbers.now → (number : ℕ) (class : Name) → At numbers.now.classes.keys number class → At marks.items number true ↔ LedTo references classes.now.keys class) }
{
    let starts = numbers_of(alloc, numbers, classes)?;
    let marks = number_graphs::reached(alloc, numbers.next(), &starts)?;
    Ok(marks)
}

// The numbers of classes.
fn numbers_of(
    alloc: Global,
    numbers: &ClassNumbers,
    classes: &IndexSet<ClassName>,
) -> Result<Vec<usize>, NoMemory>
    requires { AreInside classes.now.keys numbers.now }
    ensures { IfOk result (λ list. AreNumbersOf numbers.now.classes.keys classes.now.keys list.items) }
{
    let mut list = Vec::new(alloc);
    for place in 0..classes.len() {
        list.push(numbers.number_of(&classes[place]))?;
    }
    Ok(list)
}

// The classes whose numbers are marked.
fn marked(alloc: Global, numbers: &ClassNumbers, marks: &[bool]) -> Result<Vec<ClassName>, NoMemory>
    requires { length marks.now ≡ length numbers.now.classes.keys }
    ensures { IfOk result (λ list. (class : Name) → Contains list.items class ↔ IsMarked numbers.now.classes.keys marks.now class) }
{
    let mut list = Vec::new(alloc);
    for number in 0..numbers.len() {
        if marks[number] {
            list.push(numbers.class(number).copied()?)?;
        }
    }
    Ok(list)
}
