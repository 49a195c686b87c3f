//! Class files and listings for people: what the words of a command line ask for is printed or made.
#![tactic(auto)]

mod answers;
mod laws;
mod making;
mod nesting;
mod printing;
mod program;
mod reading;
mod stops;
mod words;
mod writing;

pub use answers::Status;
pub use laws::output_is_one;
pub use program::run;
