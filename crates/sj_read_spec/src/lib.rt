//! The class-file format: its grammar, its reading functions, and the law that they are one.
#![tactic(auto)]

mod codes;
mod faults;
mod laws;
mod members;

pub use codes::{
    MemberTag, kind_with, namespace_with, plain_type, reserved_kind, reserved_member,
    reserved_namespace, reserved_operator, reserved_tree, reserved_type,
};
pub use faults::Fault;
pub use laws::one_answer;
pub use members::MemberDef;
