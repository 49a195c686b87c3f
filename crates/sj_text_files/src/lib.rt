//! Class files and listings: each class of a file has a listing, and what the class of a listing is written as.
#![tactic(auto)]

mod laws;

pub use laws::{
    each_class_of_a_file_has_a_listing, each_listed_class_is_bare, each_listed_class_is_made,
    each_listed_class_names_its_files,
};
