//! The pieces of an accepted folder, and that those that are written can run.
//!
//! `specs/` says which pieces those are. The functions here are laws: they do nothing when they run, and their clauses are theorems.
#![tactic(auto)]

ghost use Rattle.linked_folders.specs.Laws.{PiecesAreOne, WrittenPiecesRun};

/// The classes of an accepted folder have one list of pieces.
pub fn pieces_are_one()
    ensures { PiecesAreOne }
{}

/// Take the pieces of an accepted folder, and classes that own all that their pieces use. Then what is written of
/// these classes can run: each body is built with what is there, helpers have those that they use, and what they throw can be made.
pub fn written_pieces_run()
    ensures { WrittenPiecesRun }
{}
