//! The files of a plan declare what their code can use.
//!
//! `specs/` says in which file each binding stands, and what the code of each file can use: of what is there, what the pieces of the file use. The function here is a law: it
//! does nothing when it runs, and its clause is a theorem.
#![tactic(auto)]

ghost use Rattle.declared_modules.specs.Laws.{ModulesDeclare};

/// Take the pieces of the linked world of an accepted folder, in the files of a plan that have what they use, and classes that own all that their pieces use, whose pieces stand
/// among the items that run. The files declare what the code of each can use: each member with its function in the file of its class, each class that is made with the classes
/// above it, each field, and each helper; and each file leads to what its code names.
pub fn modules_declare()
    ensures { ModulesDeclare }
{}
