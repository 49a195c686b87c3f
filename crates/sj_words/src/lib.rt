//! The words of a command line: what they ask for, if they are in the grammar.
#![tactic(auto)]

mod commands;
mod earlier;
mod given;
mod kinds;
mod laws;
mod numbers;
mod reading;

pub use commands::{Command, Link, Style};
pub use earlier::{first_command, split_command};
pub use laws::earlier_commands_stay;
pub use reading::command;
