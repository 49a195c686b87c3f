//! The file that a class is written as: its definition, and the laws that it is the file of the same class, apart from the
//! numbers of source files, and that its tables hold each entry once.
#![tactic(auto)]

mod laws;

pub use laws::{
    classes_of_files_name_their_files, tables_hold_each_entry_once, written_classes_are_read_back,
};
