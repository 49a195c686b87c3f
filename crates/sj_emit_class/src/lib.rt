//! The pieces of the classes of a linked world, but for the functions of their methods.
#![tactic(auto)]

mod entries;
mod fields;
mod instances;
mod marks;
mod needed;
mod pieces;
mod ranges;
mod statics;

pub use entries::entries_by_class;
pub use pieces::class_pieces;
