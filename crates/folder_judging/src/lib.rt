//! The judge of a folder: decides its verdict stage by stage, by calls of an object that counts, and gives of a folder that is accepted what is
//! known of its classes.
#![tactic(auto)]

mod bodies;
mod errors;
mod judging;
mod reading;
mod refusals;
mod reports;
mod rules;
mod sizes;
mod types;

pub use errors::JudgeError;
pub use judging::judge;
pub use types::definition_of;
