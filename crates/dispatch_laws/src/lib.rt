//! Which method a call runs: as a world resolves it, as the meaning of the IR works it out, and as the emission of the call finds it.
//!
//! The functions here are laws: they do nothing when they run, and their clauses are theorems.
#![tactic(auto)]

ghost use Rattle.dispatch_laws.specs.Laws.{TargetsAreWorkedOut, ProxiesAreWorkedOut, TargetsRun, EmissionFindsTargets};

/// What a public method name resolves to for a class of a world is what the meaning of the IR works out for it: the nearest body on the chain of
/// superclasses, else the least of the interfaces above with a body that no other overrides. The world's classes stand in order, no name twice.
pub fn targets_are_worked_out()
    ensures { TargetsAreWorkedOut }
{}

/// What the meaning of the IR works out for a reflective call on a class, the call reaches: the narrowest of the methods of the name in the first class of the chain that has any, or the least
/// of them, and nothing where no class of the chain has one.
pub fn proxies_are_worked_out()
    ensures { ProxiesAreWorkedOut }
{}

/// Where a member is called on a receiver, the IR runs the body of its target, in a class at or above its own, if nothing stands above
/// `java.lang.Object`.
pub fn targets_run()
    ensures { TargetsRun }
{}

/// Emission by the answers of a world, whose classes stand in order, no name twice, gives the function whose calls run the targets of that world.
pub fn emission_finds_targets()
    ensures { EmissionFindsTargets }
{}
