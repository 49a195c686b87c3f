//! Worlds of classes: what stands above a class, which type is a subtype of which, and which method a call runs.
//!
//! A contract sees a world as the list of its classes, in the order of the bytes of their names.
#![tactic(auto)]

mod above;
mod below;
mod chains;
mod cycles;
mod definitions;
mod facts;
mod known;
mod laws;
mod lines;
mod linked;
mod members;
mod order;
mod reached;
mod receivers;
mod reflective;
mod resolving;
mod spellings;
mod subtypes;
mod worlds;

pub use definitions::{field_in, method_in};
pub use facts::Fact;
pub use laws::{
    ancestors_grow, ancestors_rise, bodies_are_inherited, calls_resolve_once, subtypes_are_ordered,
    worked_worlds, worlds_are_one,
};
pub use linked::{LinkedWorld, MethodEntry};
pub use members::Owned;
pub use reached::Reached;
pub use receivers::receiver_class;
pub use resolving::Resolution;
pub use worlds::{World, WorldError};
