//! What bodies use: where all that the emitted code of a body names is there, the body is built with what is there.
//!
//! `specs/` says what a body is given. The functions here are laws: they do nothing when they run, and their clauses are theorems.
#![tactic(auto)]

ghost use Rattle.body_uses.specs.Laws.{BodiesUseWhatIsGiven, AcceptedBodiesUseWhatIsWritten, NeededBodiesAreBuilt};

/// Take a body of the forms with objects. Where the members, the classes and the static fields that its code names are there, and so are its fields and the helpers that its code names,
/// and each divisor is of the type that is divided, the body is built with what is there.
pub fn bodies_use_what_is_given()
    ensures { BodiesUseWhatIsGiven }
{}

/// Take a folder that is accepted, the methods of all bodies that are needed, and classes whose pieces are written, which own what the methods of these
/// classes use. Each of their methods is built with what is written.
pub fn accepted_bodies_use_what_is_written()
    ensures { AcceptedBodiesUseWhatIsWritten }
{}

/// Take a folder that is accepted, and the methods of all bodies that are needed. Each of these is of the forms that are built: it keeps the local rules and is typed, and has no more trees than its file
/// has bytes, which are fewer than 2^31.
pub fn needed_bodies_are_built()
    ensures { NeededBodiesAreBuilt }
{}
