//! Listings both ways: `print_listing` gives the one listing of a class, and `parse_listing` the class that a text lists, or the
//! exact place where the text lists none.
#![tactic(auto)]

mod classes;
mod error;
mod forms;
mod trees;
mod whole;

pub use error::ListingError;
pub use sj_text_print::print_listing;
pub use whole::parse_listing;
