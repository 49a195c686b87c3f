//! The plan of modules: which classes and initializers stand in which file, in both styles of splitting.
#![tactic(auto)]

mod components;
mod homes;
mod laws;
mod modules;
mod orders;
mod plans;
mod settling;
mod tags;
mod walks;

pub use laws::{
    classes_have_one_place, components_are_homes, homes_are_one, homes_tell_tags,
    tags_decide_homes, worked_homes,
};
pub use modules::plan;
pub use plans::{Plan, PlannedModule, Style};
