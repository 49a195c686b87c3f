//! The names of internal modules, which are made of their keys.
#![tactic(auto)]

mod counts;
mod laws;
mod naming;

pub use laws::{names_differ, worked_names};
pub use naming::internal_names;
