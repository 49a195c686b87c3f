//! The outside of the linker: the words that it is started with, the folders that it reads, the files that it writes and the lines
//! that it prints.
//!
//! Each is a trait. It has a form in memory, whose calls can be made to fail, and an adapter over real files or standard
//! output.
#![tactic(auto)]

mod answers;
mod calls;
mod contents;
mod folders;
mod folders_in_memory;
mod lines;
mod lines_in_memory;
mod names;
mod outputs;
mod outputs_in_memory;
mod parts;
mod real;
mod real_command;
mod real_files;
mod real_folders;
mod real_lines;
mod real_outputs;
mod words;

pub use answers::{Entry, OutsideError, PutFile};
pub use calls::Calls;
pub use contents::{Contents, ContentsError};
pub use folders::Folders;
pub use folders_in_memory::FoldersInMemory;
pub use lines::Lines;
pub use lines_in_memory::LinesInMemory;
pub use outputs::Outputs;
pub use outputs_in_memory::OutputsInMemory;
pub use real_command::real_words;
pub use real_files::RealFiles;
pub use real_folders::{MOST_ENTRIES, RealFolders};
pub use real_lines::RealLines;
pub use real_outputs::RealOutputs;
pub use words::{is_operand, without_line_feed};
