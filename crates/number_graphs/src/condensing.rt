// The graph of components.
ghost use Rattle.std.specs.Prelude.{◌≡◌, ◌<◌, ℕ, IfOk, OnOk, length};
ghost use Rattle.number_graphs.specs.Graphs.{Leads, IsGraph, AreComponents};
ghost use Rattle.number_graphs.specs.Marks.{AreBelow};
ghost use Rattle.number_graphs.specs.Condensed.{IsCondensed, IsConnected};

use crate::Components;
use sj_names::NoMemory;
use std::alloc::Global;

/// The graph of components: each leads to those of the numbers to which its own numbers lead. So a walk leads from one component to another
/// exactly where one leads from the numbers of the one to those of the other.
pub fn condensed(
    alloc: Global,
    next: &[Vec<usize>],
    components: &Components,
) -> Result<Vec<Vec<usize>>, NoMemory>
    requires graph { IsGraph next.now }
    requires components { AreComponents next.now components.now.of.items components.now.firsts.items }
    ensures { IfOk result (λ graph. IsCondensed next.now components.now.of.items components.now.firsts.items graph.items) }
{
    let mut graph = unconnected(alloc, components.firsts.len())?;
    for number in 0..next.len() {
        let component = components.of[number];
        connect(&mut graph, &components.of, component, &next[number])?;
    }
    Ok(graph)
}

// Lets a component lead to those of these numbers.
fn connect(
    graph: &mut Vec<Vec<usize>>,
    of: &[usize],
    component: usize,
    numbers: &[usize],
) -> Result<(), NoMemory>
    requires component { component < length graph.now.items }
    requires numbers { AreBelow (length of.now) numbers.now }
    ensures { OnOk result (IsConnected of.now numbers.now component graph.old.items graph.new.items) }
{
    for number in numbers {
        graph[component].push(of[*number])?;
    }
    Ok(())
}

// A graph of so many numbers in which none leads to another.
fn unconnected(alloc: Global, count: usize) -> Result<Vec<Vec<usize>>, NoMemory>
    ensures count { IfOk result (λ graph. length graph.items ≡ count) }
    ensures none { IfOk result (λ graph. (from to : ℕ) → Leads graph.items from to → ⊥) }
{
    let mut graph = Vec::new(alloc);
    for _ in 0..count {
        graph.push(Vec::new(alloc))?;
    }
    Ok(graph)
}
