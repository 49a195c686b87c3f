//! The shape of a tree, for walks that treat all forms alike: what it has of its own, and the trees in it. Such a walk has seven arms and
//! not forty-one.
#![tactic(auto)]

mod own;
mod parts;

pub use own::{Own, is_same_own, own_in};
pub use parts::{Parts, parts_in};
