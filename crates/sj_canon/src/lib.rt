//! Canonical bytes of methods: they are the same exactly where two methods are equal apart from positions and stored hashes.
#![tactic(auto)]

mod laws;
mod methods;
mod names;
mod numbers;
mod own;
mod trees;

pub use laws::canonical_bytes_decide;
pub use methods::canon;
