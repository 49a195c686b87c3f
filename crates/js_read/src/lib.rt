//! Reading the emitted subset of ECMAScript 2020: the one module that a text spells, or the exact place where it spells none.
#![tactic(auto)]

mod errors;
mod items;
mod lines;
mod modules;

pub use errors::JsError;
pub use modules::read_module;
