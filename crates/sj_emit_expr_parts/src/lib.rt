//! The code of the emitter: what is emitted for operators, arrays, calls and tests once their operands are, and what is asked of the classes of receivers.
#![tactic(auto)]

mod arrays;
mod calls;
mod lookup;
mod names;
mod operators;
mod receivers;
mod tests;

pub use arrays::{array_of, element_of, element_set, element_setter, length_of, new_array};
pub use calls::{call_of_callee, call_of_one, call_on, new_object};
pub use lookup::{CallLookup, ask_all};
pub use names::{function_parameters, label_name, variable_name};
pub use operators::{
    as_text, binary_template, boxed_char, host_call, is_nonzero_literal, unary_template,
};
pub use receivers::calls_of;
pub use tests::{cast_name, cast_template, test_name, test_template};
