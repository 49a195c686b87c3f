//! The pieces of what code can use where the pieces of some classes of a linked world are written.
//!
//! `specs/` says which pieces these are, and what is asked of them. The functions here are laws: they do nothing when they run, and their clauses are theorems.
#![tactic(auto)]

ghost use Rattle.declared_pieces.specs.Laws.{WhatIsUsedHasPieces, PiecesAreDeclarations};

/// Take the pieces of the linked world of an accepted folder, and classes that own all that their pieces use. What code can use there has its pieces: each member its
/// function, each class that is made its constants and itself, each static field its variable and the function that sets it, each class that is tested for or cast to
/// the functions of these, and each helper its own.
pub fn what_is_used_has_pieces()
    ensures { WhatIsUsedHasPieces }
{}

/// The items of what is written do nothing but declare: each class stands behind the one that it extends.
pub fn pieces_are_declarations()
    ensures { PiecesAreDeclarations }
{}
