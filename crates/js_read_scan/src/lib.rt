//! Reading the words of the emitted subset of ECMAScript 2020: literals, names, numbers, strings, operators, and the words that begin
//! a statement or a line.
//!
//! A reader takes the bytes that are left and gives what it read and the bytes behind it, or says how many bytes were left where no text
//! of its kind goes on. Each contract names the reader on lists of bytes whose answer this is.
#![tactic(auto)]

mod bytes;
mod files;
mod heads;
mod keywords;
mod names;
mod numbers;
mod strings;

pub use bytes::{indentation, next_is_suffix, next_is_word_start};
pub use files::file_of;
pub use heads::{
    head_of, infix_of, line_head_of, member_head_of, name_behind, name_of, new_head_of,
    parenthesis_head_of, property_of, statement_head_of,
};
pub use numbers::{below_of, key_of, number_of};
pub use strings::string_of;
