//! Numbers for the classes of a link, and the graph of these numbers.
#![tactic(auto)]

mod numbers;

pub use numbers::ClassNumbers;
