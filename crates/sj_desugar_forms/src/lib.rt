//! The parts of desugaring: what is written for each form once its operands are known.
//!
//! `sj_desugar_spec` defines them.
//!
//! Where a function here can fail, want of memory is the only error.
#![tactic(auto)]

mod arrays;
mod destinations;
mod forms;
mod jumps;
mod objects;
mod placing;
mod values;
mod writing;

pub use arrays::{array_value, element_set, element_value, length_value, new_array_value};
pub use destinations::{Destination, Target, copied_variable, target_of, with_label};
pub use forms::{
    CalledMember, Operation, SwitchCases, assigned, binary_value, branched, call_value, case_of,
    declared, defined, finished, logged, looped, looped_behind, switched, tested_loop, tried,
    unary_value,
};
pub use jumps::{labeled, leaving};
pub use objects::{
    FieldPlace, cast_value, checked_operand, coerced_value, field_set, field_value,
    looked_up_value, made_value, member_value, module_stored, static_set, tested_value, thrown,
};
pub use placing::{
    Placed, PlacedAll, brought, in_place, kept, local_destination, number_behind,
    operand_destination,
};
pub use sj_desugar_plain::{
    are_plain, checked, coerced_argument, expression_of, is_fixed, is_no_type, is_plain, is_sure,
    mutable_locals, position_of, sure_locals, without_first,
};
pub use values::value_of;
pub use writing::{Written, joined, nothing, one};
