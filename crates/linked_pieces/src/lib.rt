//! The pieces of a linked world, in the order of a module: of each class its own pieces and the functions of its methods, and behind those of `java.lang.Object` the
//! helpers that they use.
//!
//! `specs/` says which they are, in which order, and what code can use where they are written. The functions here are laws: they do nothing when they run, and
//! their clauses are theorems.
#![tactic(auto)]

ghost use Rattle.linked_pieces.specs.Laws.{LinkedPiecesAreOne};

/// The pieces of a linked world whose classes keep the local rules are one list: its order and its texts are determined by the classes, by what is reachable, and by
/// the methods.
pub fn linked_pieces_are_one()
    ensures { LinkedPiecesAreOne }
{}
