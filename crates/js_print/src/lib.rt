//! The printer of the emitted subset: it gives the one text of a piece or a module.
#![tactic(auto)]

mod expressions;
mod items;
mod modules;
mod statements;
mod writing;

pub use modules::{print_module, print_piece};
