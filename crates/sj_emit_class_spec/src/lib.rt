//! What a class is emitted to: the pieces that it owns besides the functions of its methods, and the functions by which calls tell primitive
//! receivers apart. Definitions and worked rows; no code that runs.
#![tactic(auto)]

mod laws;

pub use laws::worked_classes;
