//! Texts of 16-bit units, and their modified UTF-8.
#![tactic(auto)]

mod errors;
mod modified;
mod texts;

pub use errors::UnitsError;
pub use modified::{is_modified, read_modified, reads_what_is_written, write_modified};
pub use sj_names::NoMemory;
pub use texts::Units;
