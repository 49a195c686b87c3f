// Where a reader stops.
use sj_trees::Code;

/// The first rule that the bytes break, with the number of bytes that are left at that place.
#[derive(Clone, Copy, Debug, PartialEq, Eq)]
pub struct Fault {
    pub code: Code,
    pub left: usize,
}
