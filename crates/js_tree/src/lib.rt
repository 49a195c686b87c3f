//! The emitted subset of ECMAScript 2020: its trees, and the one spelling that each of them has.
//!
//! The trees have one variant for each production. `specs/` has the terms that they stand for, which hold no pointer, and the
//! grammar: which bytes spell a term.
#![tactic(auto)]

mod bodies;
mod expressions;
mod items;
mod laws;
mod operators;
mod statements;

pub use bodies::JsBody;
pub use expressions::{JsExpr, JsTarget};
pub use items::{
    Binding, ClassMember, JsImport, JsItem, JsMember, JsModule, JsPiece, ObjectProperty,
};
pub use laws::each_has_one_text;
pub use operators::{BinaryOperator, HostFunction, HostOperation, UnaryOperator};
pub use statements::{JsStmt, SwitchCase};
