//! The code of desugaring: plain trees as expressions of the core. What it asks of a body is handed on from `sj_desugar_facts`.
//!
//! `sj_desugar_spec` defines them.
#![tactic(auto)]

mod arrays;
mod callees;
mod coercions;
mod expressions;
mod texts;

pub use arrays::{array_of, element_of, length_of, new_array};
pub use callees::{callee_on, member_called};
pub use coercions::{coerced, coerced_argument};
pub use expressions::{
    cast, checked, coerced_receiver, expression_of, field_of, local_use, made, module_of,
    receiver_call, static_call, static_field, tested, without_first,
};
pub use sj_desugar_facts::{
    are_plain, is_fixed, is_no_type, is_plain, is_sure, mutable_locals, position_of, sure_locals,
};
pub use texts::operand_of;
