//! What is reachable from the entry points of a folder: which facts follow, and which references don't resolve. Definitions and laws; the
//! code that finds the facts stands on them.
#![tactic(auto)]

mod laws;

pub use laws::{
    reachable_facts_are_closed, reachable_facts_are_least, worked_abstract_targets, worked_facts,
    worked_limits, worked_reachability,
};
