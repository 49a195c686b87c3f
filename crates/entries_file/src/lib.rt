//! The entries file of a link, read.
#![tactic(auto)]

mod errors;
mod laws;
mod lines;
mod reading;

pub use errors::EntriesError;
pub use laws::{entries_are_valid, rows_hold};
pub use reading::entries_of;
