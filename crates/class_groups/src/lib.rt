//! Classes grouped by keys.
#![tactic(auto)]

mod groups;

pub use groups::ClassGroups;
