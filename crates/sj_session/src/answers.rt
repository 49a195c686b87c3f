// What an edit answers.

/// What an edit that was accepted did.
#[derive(Clone, Copy, Debug, PartialEq, Eq)]
pub struct Report {
    /// How many files the folder is linked to.
    pub modules: u32,
    /// How many files were read.
    pub read: u64,
    /// How many bodies were checked.
    pub checked: u64,
    /// How many bodies were optimised.
    pub optimised: u64,
    /// How many bodies were emitted.
    pub emitted: u64,
}
