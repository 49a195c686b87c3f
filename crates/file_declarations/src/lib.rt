//! Items of files that declare, and nothing more: what the binding of each holds once they have run.
//!
//! `specs/` has what items declare. The functions here are laws: they do nothing when they run, and their clauses are theorems.
#![tactic(auto)]

ghost use Rattle.file_declarations.specs.Declarations.{DeclarationsHold};

/// Declarations come to one state, at every bound and without a line, in which each function, class, object and variable holds what it is to hold: a class itself
/// and those that it extends, and each object its own address.
pub fn declarations_hold()
    ensures { DeclarationsHold }
{}
