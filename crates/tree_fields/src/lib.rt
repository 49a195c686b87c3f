//! The fields of a tree, for writers that treat all forms alike: such a writer has a line for each kind of field, and not for each form.
#![tactic(auto)]

mod fields;

pub use fields::{Field, fields_in};
