//! The pieces of a class, but for the functions of its methods, and the functions by which calls tell primitive receivers apart.
#![tactic(auto)]

mod boxing;
mod cells;
mod classes;
mod dispatch;
mod entries;
mod fields;
mod once;
mod parts;
mod tests;

pub use dispatch::{Reflected, Told, dispatch_piece, reflective_piece};
pub use parts::{ClassParts, pieces_of};
