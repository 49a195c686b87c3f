//! The tokens of listings, read with the exact place: marks, numbers and the codes of operators, and names, references and method
//! names as string literals.
//!
//! A reader gives what it read and the bytes that are left, or says how many were left where no text of its grammar goes on.
#![tactic(auto)]

mod escapes;
mod names;
mod numbers;
mod spots;

pub use names::{
    array_of, class_name_of, field_name_of, label_name_of, local_name_of, method_name_of,
    type_class_of,
};
pub use numbers::{
    binary_op_of, byte_of, int_of, long_of, mark_of, short_of, unary_op_of, unit_of,
};
