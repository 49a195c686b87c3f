//! Who reads, checks and emits in an edit, and counts it: work is counted where it is done, and nowhere else.
#![tactic(auto)]

mod workers;

pub use workers::Workers;
