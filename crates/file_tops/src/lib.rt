//! What the declarations at the tops of files come to by ECMA-262, before anything is called.
//!
//! `specs/` has the state behind a list of items, as a function that is none where an item does more than declare. The functions here are laws: they do nothing
//! when they run, and their clauses are theorems.
#![tactic(auto)]

ghost use Rattle.std.specs.Prelude.{Bool};
ghost use Rattle.file_tops.specs.Kept.{StandsOn, OwnersFound};
ghost use Rattle.file_tops.specs.Laws.{DeclarationsRun, FilesDeclare, OthersStay, ClassesExtend, HeapsAreOfItems};
ghost use Rattle.js_tree.specs.Terms.{Name};

/// Items that only declare come to one state, at every bound and without a line, and what stands behind them runs in it.
pub fn declarations_run()
    ensures { DeclarationsRun }
{}

/// The same for files that only declare, in front of others.
pub fn files_declare()
    ensures { FilesDeclare }
{}

/// A binding that no later item starts is as it was.
pub fn others_stay()
    ensures { OthersStay }
{}

/// A class that extends another holds itself and, behind it, what the other's name holds at the end.
pub fn classes_extend()
    ensures { ClassesExtend }
{}

/// The bindings and constants of the tops stand on while emitted code makes objects, sets their properties and sets variables.
pub fn stands_on()
    ensures { (Variable : Name → Name → Bool) → StandsOn Variable }
{}

/// A name that a file declares belongs to it, and one that it imports to the file that declares and exports it.
pub fn owners_found()
    ensures { OwnersFound }
{}

/// What stands on the heap behind items that declare stood there before them, or is the object that one of them declares.
pub fn heaps_are_of_items()
    ensures { HeapsAreOfItems }
{}
