//! The verdict on a folder: that it is accepted, or why it isn't, with the stages and their order. Definitions and laws; no code that runs.
#![tactic(auto)]

mod laws;

pub use laws::{
    needed_bodies_are_there, no_folder_is_without_verdict, verdict_is_one, worked_verdicts,
};
