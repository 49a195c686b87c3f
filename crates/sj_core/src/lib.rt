//! The core language: methods whose statements and expressions are apart, between the trees of the IR and the emitted code.
//!
//! An expression of the core changes no local variable, so the operands of an expression may be evaluated where it stands. A statement keeps
//! the position of the tree that it was written for, or none. A contract sees an expression or a statement by its view, a term without
//! pointers.
#![tactic(auto)]

mod callees;
mod expressions;
mod methods;
mod statements;

pub use callees::Callee;
pub use expressions::{CoreExpression, CoreVariable};
pub use methods::CoreMethod;
pub use statements::{CoreCase, CoreStatement};
