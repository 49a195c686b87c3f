//! How the emitted code tells values apart: tests of kinds and of classes, and the functions that tell primitive receivers apart in front of a call.
//!
//! `specs/` has what is asked of a program in which these functions stand. The functions here are laws: they do nothing when they run, and their clauses are
//! theorems. No file has such functions yet.
#![tactic(auto)]

ghost use Rattle.std.specs.Prelude.{◌≡◌, [], ◌∷◌, codes};
ghost use Rattle.class_tests.specs.Instances.{TestsTellInstances};
ghost use Rattle.class_tests.specs.Kinds.{TestsTell, DispatchTells, KindsRunTargets, OthersCallMethods};
ghost use Rattle.class_tests.specs.Reflecting.{ReflectionTells, OwnLinesRun, ProxiesHandOn, ShortReflectionsGo};
ghost use Rattle.class_tests.specs.Shorts.{ShortCallsGo};
ghost use Rattle.class_tests.specs.Small.{SmallTestsTell};
ghost use Rattle.class_tests.specs.Tests.{MarkersTell, ClassTestsTell, NullIsNoInstance};
ghost use Rattle.class_tests.specs.Worked.{worked_pieces};
ghost use Rattle.js_mean.specs.Shows.{js_shows};
ghost use Rattle.outcomes.specs.Outcome.{Done, Going};
ghost use Rattle.outcomes.specs.Shown.{normal};

/// The test of a kind costs one unit and tells whether its value is of the kind.
pub fn tests_tell()
    ensures { TestsTell }
{}

/// The function that tells receivers apart costs one unit, and runs the function of the first of its kinds that the value is of.
pub fn dispatch_tells()
    ensures { DispatchTells }
{}

/// On a value of a kind that is the function of the target that the world gives for the class of the kind.
pub fn kinds_run_targets()
    ensures { KindsRunTargets }
{}

/// On an object that is no boxed char it is the method of the object.
pub fn others_call_methods()
    ensures { OthersCallMethods }
{}

/// The constants of a class have the markers of the classes above it and no other.
pub fn markers_tell()
    ensures { MarkersTell }
{}

/// The test of a class costs two units at most, and tells whether its value is of one of the kinds or has the marker of the class; null is no instance.
pub fn class_tests_tell()
    ensures tells { ClassTestsTell }
    ensures null { NullIsNoInstance }
{}

/// The test of a class that isn't hijacked gives what the world says of instances.
pub fn tests_tell_instances()
    ensures { TestsTellInstances }
{}

/// With too few units calls are going, without a line.
pub fn short_calls_go()
    ensures { ShortCallsGo }
{}

/// The tests of bytes and shorts tell the Numbers in their ranges.
pub fn small_tests_tell()
    ensures { SmallTestsTell }
{}

/// The function of a reflective name runs the function of the first case whose kind its receiver is of, a char in the result as an object that holds it. Where there is none, it calls the
/// receiver's own entry of the name, if it has one, and else the helper that throws. Such an entry calls the entry of the method that it names. Within a unit a function with a case is going.
pub fn reflections_tell()
    ensures cases { ReflectionTells }
    ensures own_lines { OwnLinesRun }
    ensures entries { ProxiesHandOn }
    ensures short { ShortReflectionsGo }
{}

/// A program made of pieces: a bridge to a default method, calls on a number, on an object and on a boxed char, and the test of a class.
pub fn worked_dispatch()
    ensures within_2 { js_shows worked_pieces (codes "main") 2 ≡ record { lines = codes "d" ∷ codes "i" ∷ []; end = Going } }
    ensures within_3 { js_shows worked_pieces (codes "main") 3 ≡ record { lines = codes "d" ∷ codes "i" ∷ codes "d" ∷ codes "c" ∷ codes "yes" ∷ codes "no" ∷ codes "no" ∷ codes "no" ∷ []; end = Done normal } }
{}
