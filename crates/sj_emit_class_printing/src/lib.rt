//! The pieces of classes and the helpers keep the rules of printing.
#![tactic(auto)]

mod laws;
mod ranges;

pub use laws::pieces_of_classes_are_pieces;
pub use ranges::{name_fits, names_fit, text_fits};
