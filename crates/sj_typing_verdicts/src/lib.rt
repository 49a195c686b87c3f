//! The verdict on a method: that a check that was run gives it, whatever code ran it, and that there is one.
#![tactic(auto)]

mod laws;

pub use laws::{checks_are_verdicts, verdict_is_one};
