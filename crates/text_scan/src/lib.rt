//! What readers of texts share, with the exact place: literals, numbers, the words of tables, lists of parts, and the units of a string.
//!
//! A reader takes the bytes that are left and gives what it read and the bytes behind it, or says how many bytes were left where no text
//! of its kind goes on. Each contract names the reader on lists of bytes whose answer this is.
#![tactic(auto)]

mod bytes;
mod lists;
mod numbers;
mod stop;
mod tables;
mod units;

pub use bytes::{literal, next_is, next_is_digit};
pub use lists::{Item, in_front, list_of};
pub use numbers::{digits_of, negated};
pub use stop::Stop;
pub use tables::{value_of, word_of};
pub use units::{hex_digit, hex_value, simple_escape, units_of};
