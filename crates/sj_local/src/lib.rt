//! The rules that every class of a folder keeps by itself, and the first that a class breaks.
#![tactic(auto)]

mod classes;
mod findings;
mod laws;
mod members;
mod names;
mod places;
mod repeats;
mod rules;
mod trees;
mod walks;

pub use laws::check_is_one;
pub use places::check_class;
pub use rules::{LocalError, Rule, Where};
