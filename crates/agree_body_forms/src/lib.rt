//! The forms of bodies that the theorems on bodies cover, as a definition.
//!
//! The function here is a law: it does nothing when it runs, and its clause is a theorem.
#![tactic(auto)]

mod laws;

pub use laws::worked_forms;
