//! What code the classes of a linked world need, found by one walk over its facts and the bodies that are needed.
#![tactic(auto)]

mod forms;
mod laws;
mod live;
mod needs;

pub use laws::needs_are_these;
pub use needs::{ClassNeed, needs_of};
