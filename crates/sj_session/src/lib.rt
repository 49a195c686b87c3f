//! Sessions: a session takes folders, one after the other, and has the files that the last one that was accepted is linked to.
//!
//! A folder that is refused changes nothing. What is read, checked and emitted goes through an object that counts it.
#![tactic(auto)]

mod answers;
mod editing;
mod options;
mod sessions;

pub use answers::Report;
pub use folder_judging::JudgeError as EditRefusal;
pub use folder_linking::ModuleFile;
pub use options::Options;
pub use sessions::Session;
