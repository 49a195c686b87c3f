//! The graph of classes: which class owns a piece, and which class refers to which.
#![tactic(auto)]

mod finding;
mod graphs;
mod laws;

pub use finding::graph;
pub use graphs::{Graph, Reference};
pub use laws::{owners_alone_refer, worked_graph};
