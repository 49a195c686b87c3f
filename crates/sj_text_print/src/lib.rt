//! The printer of listings: it gives the one listing of a class.
#![tactic(auto)]

mod classes;
mod literals;
mod parts;
mod trees;
mod words;
mod writing;

pub use classes::print_listing;
