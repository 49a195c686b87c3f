//! The class files of a folder, and what is read of them.
#![tactic(auto)]

mod laws;
mod reading;
mod walking;

pub use laws::rows_hold;
pub use reading::read_folder;
