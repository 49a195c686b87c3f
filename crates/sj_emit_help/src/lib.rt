//! The pieces of the helpers: those that are the same in every program are read from their texts.
#![tactic(auto)]

mod pieces;
mod texts;
mod uses;

pub use pieces::helper_piece;
pub use uses::used_helpers;
