//! The targets of reflective calls, all of them.
#![tactic(auto)]

mod proxies;

pub use proxies::names_of_targets;
