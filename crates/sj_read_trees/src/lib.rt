//! Reads the parts of class files that stand in one another: numbers, texts, entries of the tables, references, types and trees.
#![tactic(auto)]

mod fields;
mod file_tables;
mod items;
mod leaves;
mod names;
mod references;
mod stops;
mod tables;
mod trees;
mod types;

pub use fields::{bytes_of, mark_of, number_of, short_of};
pub use file_tables::FileTables;
pub use items::{Item, list_of};
pub use names::NameEntry;
pub use references::MethodNameItem;
pub use stops::{Stop, bad};
pub use tables::{
    NameItem, StringItem, TextItem, class_name_of, field_name_of, local_name_of, method_name_of,
    position_of,
};
pub use trees::tree_of;
pub use types::{kind_of, member_tag_of, namespace_of, type_of};
