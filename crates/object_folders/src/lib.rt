//! What the laws on objects ask of an accepted folder: of its world, and of what the code can use there where the pieces of some classes are written.
//!
//! `specs/` says what is asked of the classes and helpers that are written. The function here is a law: it does nothing when it runs, and its clauses are
//! theorems.
#![tactic(auto)]

ghost use Rattle.object_folders.specs.Laws.{AcceptedFoldersCarryObjects, AcceptedFoldersLinkRightMembers};

/// The world of an accepted folder has what the laws on objects ask, where what is written can run: its live classes, its methods and its helpers find there
/// what they use. And each static member that is linked keeps the rules.
pub fn accepted_folders_carry_objects()
    ensures worlds { AcceptedFoldersCarryObjects }
    ensures members { AcceptedFoldersLinkRightMembers }
{}
