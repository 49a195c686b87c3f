//! Oracles that keep what was asked.
#![tactic(auto)]

mod recorders;

pub use recorders::Recorder;
