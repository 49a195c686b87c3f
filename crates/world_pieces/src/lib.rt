//! The pieces of a linked world in the order of a module: of each class its own and the functions of its methods, and behind those of
//! `java.lang.Object` the helpers that are used and the functions that tell primitive receivers apart, of methods and of reflective names.
#![tactic(auto)]

mod above;
mod behind;
mod blocks;
mod classes;
mod functions;
mod helpers;
mod method_names;
mod pieces;
mod reflected;
mod table;
mod told;
mod words;

pub use pieces::world_pieces;
