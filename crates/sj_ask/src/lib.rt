//! Questions that the work on a method asks of its world, their answers, and the records of what was asked.
//!
//! A task, such as the check of a method, is defined once as what it asks and what it does with each answer. What it comes to in a world,
//! what it asks there, and the law that equal answers lead to equal results are all readings of that definition.
#![tactic(auto)]

mod errors;
mod hijacked;
mod holding;
mod laws;
mod logs;
mod oracles;
mod questions;
mod sizes;
mod targets;
mod worlds;

pub use errors::TypeError;
pub use holding::still_holds;
pub use laws::{Sameness, answers_are_one, equal_answers_give_equal_results, held_answers_run};
pub use logs::Log;
pub use oracles::Oracle;
pub use questions::{Answer, Question};
pub use worlds::WorldOracle;
