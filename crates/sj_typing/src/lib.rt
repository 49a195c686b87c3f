//! The check of a method's body by the rules of its types, which asks the method's world.
#![tactic(auto)]

mod checks;
mod fits;
mod labels;
mod methods;
mod rows;
mod types;

pub use methods::check_method;
