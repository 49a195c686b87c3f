//! Tests of `sjsir` over folders, files and lines in memory, and of the texts of listings.
//!
//! They stand apart, since the tests of a crate are proved together with all of it once more.
#![tactic(auto)]

#[cfg(test)]
mod listing_runs;
#[cfg(test)]
mod listing_texts;
#[cfg(test)]
mod memory;
