// Components.
ghost use Rattle.std.specs.Prelude.{IfOk};
ghost use Rattle.number_graphs.specs.Graphs.{IsGraph, AreComponents};

use crate::paths::Search;
use sj_names::NoMemory;
use std::alloc::Global;

/// The components of a graph, by numbers.
#[derive(Drop)]
pub struct Components {
    /// The component of each number of the graph.
    pub of: Vec<usize>,
    /// A number of each component.
    pub firsts: Vec<usize>,
}

/// The components of the graph in which each number below the length of `next` leads to those in its list. Two numbers have the same
/// component exactly where walks lead both ways between them. A component leads only to itself and to those before it.
pub fn find_components(alloc: Global, next: &[Vec<usize>]) -> Result<Components, NoMemory>
    requires { IsGraph next.now }
    ensures { IfOk result (λ components. AreComponents next.now components.of.items components.firsts.items) }
{
    let mut search = Search::new(alloc, next.len())?;
    for number in 0..next.len() {
        search.explore(next, number)?;
    }
    search.into_components(alloc)
}
