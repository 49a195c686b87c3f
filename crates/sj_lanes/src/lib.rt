//! Kernels over bytes and code units that `std::simd` runs many lanes at a time: equality, the first
//! unit that a string literal escapes, and the number of line feeds. Each takes any length, allocates
//! nothing, and promises the plain fact, with no word of lanes.
#![tactic(auto)]

mod equality;
mod line_feeds;
mod units;

pub use equality::same_bytes;
pub use line_feeds::count_newlines;
pub use units::first_special_unit;
