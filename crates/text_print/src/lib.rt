//! What printers of texts share: words, decimal numbers, and strings of 16-bit units in double quotes.
#![tactic(auto)]

mod units;
mod words;

pub use units::{append_text, append_unit};
pub use words::{append, append_decimal};
