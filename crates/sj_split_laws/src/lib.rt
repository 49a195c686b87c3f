//! Laws of plans of modules, which follow from what a plan is.
#![tactic(auto)]

mod laws;

pub use laws::{
    digests_have_one_length, ids_are_not_internal, modules_are_components, modules_are_homes,
    modules_are_tags, names_differ, placed_classes_are_reached, placed_where_public_or_owning,
    plans_are_one,
};
