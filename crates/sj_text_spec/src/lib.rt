//! Listings: a class as one line of text. `specs/` has the grammar, the text of each class and the readers on lists of bytes, and
//! the functions here state the laws between them.
#![tactic(auto)]

mod laws;
mod words;

pub use laws::{
    each_has_one_listing, listing_is_read, one_class, place_is_exact, read_class_is_listed,
};
pub use words::Spot;
