//! Desugaring: the method of the core for a method of the IR.
//!
//! `sj_desugar_spec` defines it, and `sj_desugar_forms` has what is written for each form.
#![tactic(auto)]

mod methods;
mod trees;

pub use methods::desugar;
