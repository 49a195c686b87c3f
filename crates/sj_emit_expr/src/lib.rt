//! The emitter: the function that is emitted for a method of the core.
//!
//! `sj_emit_expr_spec` defines it, a template for each expression and statement and the bindings that they use, by what is known of the classes of
//! receivers. What it asks for is defined in `sj_emit_expr_questions`.
#![tactic(auto)]

mod expressions;
mod members;
mod statements;
mod uses;

pub use members::emit_member;
