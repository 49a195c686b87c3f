//! The method entries of a linked folder: the names by which instances of a class are called, and the body that each stands for. Definitions and
//! laws; no code that runs.
#![tactic(auto)]

mod laws;

pub use laws::{one_target, worked_entries};
