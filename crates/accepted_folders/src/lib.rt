//! What follows for a folder from the verdict that it is accepted: the module that is made of the bodies that are needed shows what its classes show.
//!
//! `specs/` says what an accepted folder has, and which methods are those of its bodies. The functions here are laws: they do nothing when they
//! run, and their clauses are theorems.
#![tactic(auto)]

ghost use Rattle.accepted_folders.specs.Laws.{AcceptedFoldersHaveAWorld, AcceptedFoldersHaveBodies, CallsAreAmongBodies, InitializersAreAmongBodies, AcceptedFilesAgree};
ghost use Rattle.accepted_folders.specs.Objects.{AcceptedWorldsAreKept, AcceptedWorldsWriteInterfaces};

/// A folder is accepted just where its files are read as classes that keep the local rules and make a world in which what is reachable resolves and
/// is typed.
pub fn accepted_folders_have_a_world()
    ensures { AcceptedFoldersHaveAWorld }
{}

/// The bodies that are needed in an accepted folder can be listed: each is the body of a method that is found for its member.
pub fn accepted_folders_have_bodies()
    ensures { AcceptedFoldersHaveBodies }
{}

/// Take the methods of all bodies that are needed. What one of them calls is among them.
pub fn calls_are_among_bodies()
    ensures { CallsAreAmongBodies }
{}

/// The methods of the initializers are among those of the bodies that are needed.
pub fn initializers_are_among_bodies()
    ensures { InitializersAreAmongBodies }
{}

/// The classes of an accepted folder have what the laws on objects ask of a world: they keep the rules on superclasses and on hijacked classes, and what is written as an
/// interface by a class that is needed, by a hijacked class, or by one above it, is one.
pub fn accepted_worlds_carry_objects()
    ensures kept { AcceptedWorldsAreKept }
    ensures interfaces { AcceptedWorldsWriteInterfaces }
{}

/// Take a folder that is accepted, and the methods of all bodies that are needed, each of the forms that are built. Each file that
/// spells their functions, and behind them the calls of the initializers of a public module, shows of it what the folder's classes show: what the one
/// shows within any bound the other shows within some bound, and the other way round, and neither is wrong at any bound.
pub fn accepted_files_agree()
    ensures { AcceptedFilesAgree }
{}
