//! The module of a planned module, made of pieces.
#![tactic(auto)]

mod calls;
mod files;
mod groups;
mod imports;
mod items;
mod lists;
mod modules;
mod orders;
mod shares;
mod uses;

pub use files::file_name;
pub use modules::module;
pub use shares::Shares;
