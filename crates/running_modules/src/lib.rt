//! The files of the public modules of a plan, as they run: each behind files that only declare.
//!
//! The functions here are laws: they do nothing when they run, and their clauses are theorems.
#![tactic(auto)]

ghost use Rattle.running_modules.specs.Laws.{ModulesDeclareConstants, ModulesDeclareInOrder, ModulesHaveTheirItems, PublicModulesAreThere, ReachedFilesOnlyDeclare};

/// In a plan there is a module for each id of an entry, with the initializers of the id.
pub fn public_modules_are_there()
    ensures { PublicModulesAreThere }
{}

/// The file of a module has the items of the pieces that its classes own, and the calls of its initializers.
pub fn modules_have_their_items()
    ensures { ModulesHaveTheirItems }
{}

/// A file from which another imports calls no initializers.
pub fn reached_files_only_declare()
    ensures { ReachedFilesOnlyDeclare }
{}

/// The files that run in front of that of a module do nothing but declare, and so do the items of its own pieces: each class stands behind the one that it extends.
pub fn modules_declare_in_order()
    ensures { ModulesDeclareInOrder }
{}

/// Each object that these files declare is the constants of a class, with the markers of the classes that stand above it.
pub fn modules_declare_constants()
    ensures { ModulesDeclareConstants }
{}
