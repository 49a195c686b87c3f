//! Pieces have a graph, and a graph has a plan, of whatever size and in either style.
//!
//! The functions here are laws: they do nothing when they run, and their clauses are theorems.
#![tactic(auto)]

ghost use Rattle.sj_split_plans.specs.Laws.{GraphsExist, PlansExist};

/// Any pieces have a graph.
pub fn graphs_exist()
    ensures { GraphsExist }
{}

/// Any graph has a plan, with any entry points, in either style and by any digests.
pub fn plans_exist()
    ensures { PlansExist }
{}
