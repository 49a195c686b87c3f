//! The method entries of an accepted folder's classes are one list.
//!
//! The function here is a law: it does nothing when it runs, and its clause is a theorem.
#![tactic(auto)]

ghost use Rattle.linked_entries.specs.Laws.{EntriesAreOne};

/// Of the same reachable facts, in whatever order, the classes of an accepted folder have one list of method entries: no two of its entries stand at one place of the order, since a class has
/// one entry for a name, and no two names of methods have one spelling.
pub fn entries_are_one()
    ensures { EntriesAreOne }
{}
