//! The helpers of the emitted code: what each is, which bindings it uses, and the texts of those that are the same in every program.
//! Definitions and their law; no code that runs.
#![tactic(auto)]

mod kinds;
mod laws;

pub use kinds::{Failure, Helper, Kind};
pub use laws::{texts_spell_helpers, worked_helpers};
