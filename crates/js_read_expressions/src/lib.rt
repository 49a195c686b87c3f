//! Reading the expressions of the emitted subset of ECMAScript 2020.
#![tactic(auto)]

mod expressions;

pub use expressions::{
    expression_after, expression_before, expression_between, expression_of, wordless_of,
};
