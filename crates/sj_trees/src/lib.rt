//! The trees of the IR, the classes that hold them, and the types of trees.
//!
//! A contract sees a tree by its `view`, a term without pointers, and every other type of this crate as it is declared.
#![tactic(auto)]

mod bodies;
mod classes;
mod forms;
mod operators;
mod positions;
mod refusals;
mod trees;
mod types;
mod typing;

pub use bodies::Body;
pub use classes::{ClassDef, ClassKind, FieldDef, MethodDef, ParamDef};
pub use forms::{BranchForm, CallForm, FORM_WORDS, Form, LeafForm, OperationForm, StatementForm};
pub use operators::{BinaryOp, UnaryOp};
pub use positions::Position;
pub use refusals::{Code, ReadRefusal, Reserved};
pub use trees::{MatchCase, Tree};
pub use types::IrType;
pub use typing::type_of;
