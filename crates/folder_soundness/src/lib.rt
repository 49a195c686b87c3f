//! An accepted folder is wrong at no bound: what its classes show goes on, or it ends normally or uncaught.
//!
//! `specs/` says so. The function here is a law: it does nothing when it runs, and its clause is a theorem.
#![tactic(auto)]

ghost use Rattle.folder_soundness.specs.Laws.{AcceptedFoldersAreNeverWrong};

/// What an accepted folder shows of any module is wrong at no bound. It asks for no pieces of code, and knows neither styles nor files of a link.
pub fn accepted_folders_are_never_wrong()
    ensures { AcceptedFoldersAreNeverWrong }
{}
