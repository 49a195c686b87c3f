//! Whether trees and methods are equal apart from positions.
#![tactic(auto)]

mod methods;
mod trees;

pub use methods::{is_same_field, is_same_method};
pub use trees::is_same_tree;
