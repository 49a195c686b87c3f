//! The functions that tell primitive receivers apart, with the cases that they have in a linked world.
#![tactic(auto)]

mod reflected;
mod told;

pub use reflected::reflective_of;
pub use told::dispatch_of;
