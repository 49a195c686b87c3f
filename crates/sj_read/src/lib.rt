//! Reads class files: members, classes and whole files. What stands in them is read by `sj_read_trees`.
#![tactic(auto)]

mod classes;
mod files;

pub use files::read_class;
