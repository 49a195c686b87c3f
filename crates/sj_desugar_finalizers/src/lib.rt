//! What is written around the code of a finalizer: the variables that it keeps, in front of it, and what gives them back, behind it.
//!
//! `sj_desugar_spec` defines them.
#![tactic(auto)]

mod kept;
mod walks;

pub use kept::{given_back, keep_all, kept_in};
