//! Links a folder that is accepted: emits the functions of the bodies that are needed, by calls of an object that counts, puts them among the pieces
//! of their classes, and prints the modules that are planned for these.
#![tactic(auto)]

mod files;
mod functions;
mod linking;
mod members;
mod modules;

pub use files::ModuleFile;
pub use linking::link;
