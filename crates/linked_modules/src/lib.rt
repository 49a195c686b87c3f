//! The files of the modules that are planned for the pieces of an accepted folder, what they show of each public module, and what an edit comes to.
//!
//! `specs/` says which files those are, and what the work of an edit is. The functions here are laws: they do nothing when they run, and
//! their clauses are theorems.
#![tactic(auto)]

ghost use Rattle.linked_modules.specs.Laws.{FolderLinkIsOne, LinkIsOne, LinkedFoldersAgree, LinkedModulesAgree, WorkIsOne};

/// The theorem on links with several public modules. The files that an accepted folder is linked to, in either style, show of each public module
/// what the folder's classes show: what the one shows within any bound the other shows within some bound, and the other way round, and neither is
/// wrong at any bound.
pub fn linked_modules_agree()
    ensures { LinkedModulesAgree }
{}

/// The classes of an accepted folder are linked to one list of files at most in each style.
pub fn link_is_one()
    ensures { LinkIsOne }
{}

/// A folder is linked to one list of files at most in each style.
pub fn folder_link_is_one()
    ensures { FolderLinkIsOne }
{}

/// A folder takes one amount of work.
pub fn work_is_one()
    ensures { WorkIsOne }
{}

/// The files that a folder is linked to show of each public module what the folder's classes show.
pub fn linked_folders_agree()
    ensures { LinkedFoldersAgree }
{}
