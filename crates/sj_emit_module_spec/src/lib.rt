//! The module of a planned module: import lines, the items of its pieces, the calls of its initializers, and an export line.
//!
//! `specs/` says what it is. The functions here are laws: they do nothing when they run, and their clauses are theorems.
#![tactic(auto)]

mod laws;
mod rows;

pub use laws::{
    exports_are_declared, files_are_those_of_plans, imports_find_exports,
    lone_modules_have_no_lines, modules_are_one, modules_have_their_lines, modules_keep_rules,
    plans_name_files,
};
pub use rows::{worked_calls, worked_order, worked_sharing};
