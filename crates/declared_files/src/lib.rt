//! Files that declare the code of objects run one behind another to a state that stands for the opening of the IR, and the calls in the last show what the classes show.
//!
//! `specs/` has what the items of several files declare, and when they declare all that bodies can use. The functions here are laws: they do nothing when they run, and their
//! clauses are theorems.
#![tactic(auto)]

ghost use Rattle.std.specs.Prelude.{◌≡◌, ℕ, List, [], codes};
ghost use Rattle.agree_soundness.specs.Worked.{object_world, object_use};
ghost use Rattle.agree_body_forms.specs.Built.{Usable};
ghost use Rattle.declared_files.specs.Declared.{Spread, Declared, IsPublic, IsLawful};
ghost use Rattle.declared_files.specs.Placed.{DeclarationsOfFilesHold, FilesDeclareInOrder, FilesRunLast};
ghost use Rattle.declared_files.specs.Worked.{three_files, spread};
ghost use Rattle.ir_mean.specs.Rows.{once};
ghost use Rattle.ir_mean.specs.Shows.{initializers, ir_shows};
ghost use Rattle.js_mean.specs.Shows.{js_shows};
ghost use Rattle.outcomes.specs.Agreement.{Agree};
ghost use Rattle.outcomes.specs.Outcome.{Done, Going};
ghost use Rattle.outcomes.specs.Shown.{normal};
ghost use Rattle.sj_names.specs.declared.entry_points.EntryPoint.{EntryPoint};
ghost use Rattle.sj_world.specs.Laws.{IsPlain};

/// A file runs last of those that it reaches by imports, and each of these runs once.
pub fn files_run_last()
    ensures { FilesRunLast }
{}

/// Items of files only declare where each does so in its place, a class behind the one that it extends: in a file in front of its own, or in its own.
pub fn files_declare_in_order()
    ensures { FilesDeclareInOrder }
{}

/// Files of declarations that run one behind another come to one state, at every bound and without a line, in which each function, class, object and variable holds what it is
/// to hold: a class itself and those that it extends, in whatever file these stand, and each object its own address.
pub fn declarations_of_files_hold()
    ensures { DeclarationsOfFilesHold }
{}

/// The theorem on files with objects: take good files that declare and run in order, of which the last then calls the initializers of a public module. Let all that the code of
/// each can use be declared in the file of its binding, and let the file lead to what its code names. Let the classes have what the laws on objects ask. Then the program shows
/// of the public module what the classes show: what the one shows within any bound the other shows within some bound, and the other way round, and neither is wrong at any
/// bound.
pub fn declared_files_agree()
    ensures { (z : Spread) (all : Usable) (entries : List EntryPoint) (id : List ℕ) → IsPlain z.classes → IsPublic z id (initializers entries id) → Declared z → IsLawful z all → Agree (ir_shows z.classes entries id) (js_shows z.program id) }
{}

/// The premises can be met by three files: one has a class that extends that of another, and the last makes an object of it and calls a method on it that gives its field. They
/// declare what the code of each uses, and show what the classes show. They end within the bound 3, as the one file of the same classes does.
pub fn worked_program_of_files()
    ensures declared { Declared spread }
    ensures public { IsPublic spread (codes "main") once }
    ensures lawful { IsLawful spread object_use }
    ensures agrees { Agree (ir_shows object_world once (codes "main")) (js_shows three_files (codes "main")) }
    ensures files_within_2 { js_shows three_files (codes "main") 2 ≡ record { lines = []; end = Going } }
    ensures files_within_3 { js_shows three_files (codes "main") 3 ≡ record { lines = []; end = Done normal } }
{}
