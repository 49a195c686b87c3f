//! The pieces of an accepted folder declare what they use.
//!
//! The function here is a law: it does nothing when it runs, and its clause is a theorem.
#![tactic(auto)]

ghost use Rattle.closed_pieces.specs.Laws.{UsesAreDeclared};

/// In an accepted folder each binding that a piece uses is the name of a piece of its owner.
pub fn uses_are_declared()
    ensures { UsesAreDeclared }
{}
