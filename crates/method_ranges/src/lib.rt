//! That the names, numbers and units of a method of the core are in the ranges of their types, learned where it isn't known which class the method
//! comes from. The programs over vectors ask; what links a folder knows it of all that has a listing.
#![tactic(auto)]

mod ranges;

pub use ranges::method_fits;
