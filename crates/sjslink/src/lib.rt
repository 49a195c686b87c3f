//! The linker's top call: what the words of a command line name is read, linked and written.
#![tactic(auto)]

mod answers;
mod editing;
mod entries;
mod laws;
mod program;
mod reports;
mod writing;

pub use answers::Status;
pub use laws::{output_is_one, programs_are_read_once};
pub use program::run;
