//! Reading the statements of the emitted subset of ECMAScript 2020.
#![tactic(auto)]

mod simple_statements;
mod statements;

pub use js_read_expressions::{expression_after, expression_of, wordless_of};
pub use statements::block_of;
