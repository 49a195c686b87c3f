//! The pieces of a linked world have no early error: none by itself, and no module of those that some classes own.
//!
//! `specs/` says what a module of them is. The functions here are laws: they do nothing when they run, and their clauses are theorems.
#![tactic(auto)]

ghost use Rattle.proper_pieces.specs.Laws.{PiecesAreProper, NamesOfPiecesDiffer, ModulesOfPiecesAreProper};

/// Each piece of a class, each helper, each function that tells primitive receivers apart, and the piece of each method whose locals are defined once has no early error.
pub fn pieces_are_proper()
    ensures { PiecesAreProper }
{}

/// No two pieces of a linked world declare one name.
pub fn names_of_pieces_differ()
    ensures { NamesOfPiecesDiffer }
{}

/// A module of the pieces that some classes own, with calls of any initializers, has no early error.
pub fn modules_of_pieces_are_proper()
    ensures { ModulesOfPiecesAreProper }
{}
