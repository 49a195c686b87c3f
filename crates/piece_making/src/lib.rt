//! Makers of the parts of pieces. A maker takes its parts as they were made, each of them or want of memory, so that a template is written as
//! one expression. Want of memory is the only error.
#![tactic(auto)]

mod bindings;
mod expressions;
mod items;
mod kinds;
mod markers;
mod names;
mod parameters;
mod statements;

pub use bindings::{
    bound, helper_binding, no_bindings, object_binding, one_binding, three_bindings, two_bindings,
};
pub use expressions::{
    binary, both, call, conditional, either, has_word, is_null, method_call, name, name_of, new_of,
    no_arguments, not_null, one_argument, property, text_of, wide_text,
};
pub use items::{constructor, function, let_item, method, object_item, piece};
pub use kinds::{class_of_kind, helper_name};
pub use markers::constants;
pub use names::text;
pub use parameters::{
    arguments_behind, arguments_of, no_parameters, one_parameter, parameters_behind, parameters_of,
};
pub use statements::{
    assign, constant, expression_statement, if_only, one_statement, only_return, return_of,
    set_property, two_statements,
};
