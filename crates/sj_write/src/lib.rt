//! The writer of class files.
#![tactic(auto)]

mod classes;
mod entries;
mod files;
mod numbers;
mod references;
mod trees;
mod writer;

pub use files::write_class;
