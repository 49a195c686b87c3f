//! Pieces: the emitted function of a method, with a receiver or without one, as the class of the method owns it. It keeps the rules of printing.
//!
//! `specs/` has the piece of a method, when its names, numbers and units are in the ranges of their types, as they are in what desugaring gives for a method
//! of which there is a listing, and when each case of a switch has a key, as each has in what desugaring gives. It has too of which expressions fields are
//! read and set and methods looked up, which bodies are desugared to such alone, and when what the calls of a method run has names of bytes.
#![tactic(auto)]

mod laws;
mod pieces;
mod ranges;

pub use laws::{
    desugared_fields_have_owners, desugared_members_fit, desugared_members_have_keys,
    desugared_methods_have_keys,
};
pub use pieces::member_piece;
pub use ranges::{member_fits, method_name_fits};
