//! The files that spell the modules of a plan, by the meaning of files: whose the names are that their items use, and that each is good.
//!
//! The functions here are laws: they do nothing when they run, and their clauses are theorems.
#![tactic(auto)]

ghost use Rattle.module_files.specs.Laws.{FilesAreGood, FilesAreRead, ImportsGoInNoCircle, ImportsRunFirst, LinkedPiecesAreProper, LoneModulesAreOfPieces, NamesAreOwned, PlansAreWhole, ReachedFilesAreGood, UsesAreOwned};

/// The module of a plan that has no other is that of the pieces that its classes own.
pub fn lone_modules_are_of_pieces()
    ensures { LoneModulesAreOfPieces }
{}

/// Files that spell the modules of a plan are read as their program.
pub fn files_are_read()
    ensures { FilesAreRead }
{}

/// The name of a piece belongs to the file in which the piece stands.
pub fn names_are_owned()
    ensures { NamesAreOwned }
{}

/// A name that a file uses, by a piece or by the call of an initializer, belongs there to the file of its owner.
pub fn uses_are_owned()
    ensures { UsesAreOwned }
{}

/// In a plan of closed pieces the class of whatever they use stands in a file.
pub fn plans_are_whole()
    ensures { PlansAreWhole }
{}

/// Each file is good: it has no early error, and finds what it imports.
pub fn files_are_good()
    ensures { FilesAreGood }
{}

/// The files that a file reaches by imports are good.
pub fn reached_files_are_good()
    ensures { ReachedFilesAreGood }
{}

/// In a plan for the graph of the pieces no imports lead from a file to another and back.
pub fn imports_go_in_no_circle()
    ensures { ImportsGoInNoCircle }
{}

/// In such a plan a file runs behind those from which it imports.
pub fn imports_run_first()
    ensures { ImportsRunFirst }
{}

/// The pieces of a linked world are proper, where what files use of them is declared.
pub fn linked_pieces_are_proper()
    ensures { LinkedPiecesAreProper }
{}
