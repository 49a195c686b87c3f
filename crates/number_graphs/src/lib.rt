//! Graphs of numbers: what walks lead to, the components, the sets of numbers between which walks lead both ways, and the graph of these. All are
//! found in linear time.
#![tactic(auto)]

mod condensing;
mod finding;
mod paths;
mod reaching;

pub use condensing::condensed;
pub use finding::{Components, find_components};
pub use reaching::reached;
