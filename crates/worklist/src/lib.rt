//! Searches: from keys to what they lead to, and on, until nothing new is found.
//!
//! What a key leads to is said by a `Step`; a search finds exactly the keys to which paths of steps lead.
#![tactic(auto)]

mod keys;
mod searching;

pub use keys::Key;
pub use searching::{Step, add_all, search, search_from};
