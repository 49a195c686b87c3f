//! What a body asks for is one list.
#![tactic(auto)]

mod laws;

pub use laws::infos_are_one;
