//! What is reachable from the entry points of a folder, and what is told where a reference doesn't resolve.
#![tactic(auto)]

mod asked;
mod bodies;
mod calls;
mod dispatched;
mod errors;
mod findings;
mod infos;
mod members;
mod needed;
mod reaching;
mod reflected;
mod reports;
mod seen;

pub use errors::ReachError;
pub use findings::Report;
pub use reaching::{comes_before, reach};
pub use reports::spelled_member;
