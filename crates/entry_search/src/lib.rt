//! Laws of method entries: a search for a name along the classes of an object finds the target of its call.
//!
//! `specs/` has the search, as the emitted code makes it by its classes. The functions here are laws: they do nothing when they run, and their clauses are theorems.
#![tactic(auto)]

ghost use Rattle.entry_search.specs.Chains.{ChainsEnd};
ghost use Rattle.entry_search.specs.Laws.{SearchFindsTarget};

/// A search along the chain of a class that is made, or extended by one that is, finds the target of a call that is wanted there.
pub fn search_finds_target()
    ensures { SearchFindsTarget }
{}

/// The chain that a world keeps of a class goes to its end.
pub fn chains_end()
    ensures { ChainsEnd }
{}
