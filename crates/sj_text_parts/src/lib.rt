//! The parts of a listing that hold no trees, read with the exact place: texts, the words of tables, types, lists, and each of them
//! behind the space that stands between parts.
#![tactic(auto)]

mod fields;
mod lists;
mod tables;
mod texts;
mod types;

pub use fields::{
    array_field, binary_field, byte_field, char_field, class_field, field_field, int_field,
    kind_field, label_field, long_field, mark_field, method_field, name_field, namespace_field,
    short_field, string_field, type_field, unary_field,
};
pub use lists::{Part, bracketed_of};
pub use tables::form_of;
