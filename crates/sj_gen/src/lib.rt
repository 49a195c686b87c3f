//! Generated folders of any size, for tests and for measuring.
#![tactic(auto)]

mod classes;
mod folders;
mod laws;
mod trees;

pub use folders::folder;
pub use laws::{generated_files_are_read_back, generated_paths_rise};
