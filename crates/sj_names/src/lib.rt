//! Names of the IR, texts, and the small types that every layer above shares.
//!
//! A contract sees a text, a name or a list of this crate as the list that it holds: no pointer, no capacity.
#![tactic(auto)]

mod class_names;
mod counters;
mod cuts;
mod entries;
mod entry_points;
mod folders;
mod laws;
mod lists;
mod local_names;
mod memory;
mod method_names;
mod naming;
mod references;
mod shared;
mod simple_names;
mod texts;
mod well_known;

pub use class_names::ClassName;
pub use counters::Meter;
pub use entries::Entries;
pub use entry_points::{EntryPoint, is_public_id};
pub use folders::{Folder, SourceFile};
pub use laws::{reads_method_names, reads_references, tests_decide_the_grammar};
pub use lists::Items;
pub use local_names::{LabelName, LocalName};
pub use memory::{NameError, NoMemory};
pub use method_names::{Member, MethodName, Namespace, is_method_name};
pub use naming::{is_class_name, is_plain_name, is_simple_name};
pub use references::{ArrayRef, BaseRef, TypeRef, is_reference};
pub use shared::Shared;
pub use simple_names::{FieldName, SimpleName};
pub use texts::{Bytes, Text};
pub use well_known::{INIT, INTEGER, NUMBER, OBJECT, is_hijacked};
