//! The method entries of a linked folder, as `sj_baselink_spec` defines them, and the world that has them.
#![tactic(auto)]

mod called;
mod direct;
mod entries;
mod linking;
mod live;
mod made;
mod named;
mod ordered;
mod proxies;
mod reflective;
mod superclasses;

pub use linking::base_link;
pub use reflective::reflective_names;
