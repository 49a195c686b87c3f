//! Lists that are kept under the names of classes.
#![tactic(auto)]

mod lists;

pub use lists::Lists;
