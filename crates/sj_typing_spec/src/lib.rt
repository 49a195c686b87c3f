//! The types of a method's body: the rule that each form of tree has to meet, and what the check of a body asks and comes to.
//!
//! `specs/` has the rules, the check as a task that asks questions, and its verdict. The function here is a law; the check itself is in
//! `sj_typing`.
#![tactic(auto)]

mod labels;
mod laws;
mod rows;

pub use labels::Label;
pub use laws::equal_answers_give_equal_checks;
pub use rows::{Checked, FieldUse, Fit, Row};
