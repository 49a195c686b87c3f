//! What the emitted code of classes does by ECMA-262: objects are made along a chain of classes, and a call on an object runs the function of its target.
//!
//! `specs/` has what is asked of a program in which the pieces of classes stand. The functions here are laws: they do nothing when they run, and their clauses
//! are theorems. No file has such pieces yet.
#![tactic(auto)]

ghost use Rattle.std.specs.Prelude.{◌≡◌, [], codes};
ghost use Rattle.class_code.specs.Bridges.{BridgesHandOn, LookupSearches};
ghost use Rattle.class_code.specs.Made.{ChainsMake, ShortBoundsGo};
ghost use Rattle.class_code.specs.Markers.{MarkersTellClasses};
ghost use Rattle.class_code.specs.Modules.{StoresTell, LoadsTell, ShortModulesGo, ModulesHaveCodes, worked_plain, worked_stored, worked_again, worked_lines};
ghost use Rattle.class_code.specs.Objects.{LookupFindsBridge, ObjectsRunTargets};
ghost use Rattle.js_mean.specs.Shows.{js_shows};
ghost use Rattle.outcomes.specs.Outcome.{Done, Going};
ghost use Rattle.outcomes.specs.Shown.{normal};

/// A method of a class that only hands its call on costs one unit, and runs the function with `this` in front of the arguments.
pub fn bridges_hand_on()
    ensures { BridgesHandOn }
{}

/// The property of an object is that of the first of its classes that has such a method.
pub fn lookup_searches()
    ensures { LookupSearches }
{}

/// In a program that has the classes of a chain with their method entries, the property of an object under the name of an entry is the method that hands on to
/// the function of the call's target.
pub fn lookup_finds_bridge()
    ensures { LookupFindsBridge }
{}

/// The emitted call of a method on an object runs, at a unit more, the emitted function of the target that the world gives for the object's class.
pub fn objects_run_targets()
    ensures { ObjectsRunTargets }
{}

/// The constructors of a chain of classes make one object, at a unit each, with the fields of the chain at their zeros and the constants of its class, and change
/// nothing else; with fewer units they are going.
pub fn chains_make()
    ensures whole { ChainsMake }
    ensures short { ShortBoundsGo }
{}

/// By the marker of a class its name is known.
pub fn markers_tell_classes()
    ensures { MarkersTellClasses }
{}

/// The function that stores the one object of a module class costs one unit, and sets the variable of the class.
pub fn stores_tell()
    ensures { StoresTell }
{}

/// The function that loads the one object of a module class costs one unit. It gives what the variable of the class holds; where that is null, the object is made, its
/// constructor runs on it, and what this gives is put into the variable and given.
pub fn loads_tell()
    ensures { LoadsTell }
{}

/// Without a unit both are going.
pub fn short_modules_go()
    ensures { ShortModulesGo }
{}

/// The pieces of a module class have the code that these laws speak of.
pub fn modules_have_codes()
    ensures { ModulesHaveCodes }
{}

/// Programs made of pieces: the object is made once, and again where the variable holds null. A constructor that stores its object may load it; one that loads it
/// before enters itself again, and never ends.
pub fn worked_modules()
    ensures within_3 { js_shows worked_plain (codes "main") 3 ≡ record { lines = worked_lines; end = Done normal } }
    ensures stored { js_shows worked_stored (codes "main") 3 ≡ record { lines = worked_lines; end = Done normal } }
    ensures again { js_shows worked_again (codes "main") 9 ≡ record { lines = []; end = Going } }
{}
