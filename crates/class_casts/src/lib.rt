//! What the emitted casts do: the casts of kinds and of classes.
//!
//! `specs/` has what is asked of a program in which these functions stand. The functions here are laws: they do nothing when they run, and their clauses
//! are theorems.
#![tactic(auto)]

ghost use Rattle.std.specs.Prelude.{◌≡◌, [], ◌∷◌, ◌++◌, codes};
ghost use Rattle.class_casts.specs.Kinds.{CastsTell};
ghost use Rattle.class_casts.specs.Classes.{ClassCastsTell, HijackedCastsTell};
ghost use Rattle.class_casts.specs.Coded.{PiecesHaveCodes};
ghost use Rattle.class_casts.specs.Hijacked.{HijackedCastsAreOfTheWorld};
ghost use Rattle.class_casts.specs.Worlds.{CastsAreOfTheWorld};
ghost use Rattle.class_casts.specs.Shorts.{ShortCastsGo};
ghost use Rattle.class_casts.specs.Worked.{worked_lines, worked_kind_cast, worked_class_cast};
ghost use Rattle.js_mean.specs.Shows.{js_shows};
ghost use Rattle.outcomes.specs.Outcome.{Done, Going};
ghost use Rattle.outcomes.specs.Shown.{uncaught, object_of};

/// The pieces of casts have the code that these laws speak of.
pub fn pieces_have_codes()
    ensures { PiecesHaveCodes }
{}

/// The cast of a kind gives the zero of the kind for null and the value where it is of the kind, of a boxed char its unit; on any other value it comes
/// to what the function that throws comes to on the word of the kind. It costs one unit, and on a value other than null one more for the test.
pub fn casts_tell()
    ensures { CastsTell }
{}

/// The cast of a class gives null for null and the value where the test of the class is true; on any other value it comes to what the function that
/// throws comes to on the name of the class. It costs one unit, and on a value other than null also those of the test.
pub fn class_casts_tell()
    ensures { ClassCastsTell }
{}

/// The cast of a hijacked class gives a value of the kind of the class as it is, and fails on any other value but null. On all of these it costs three
/// units.
pub fn hijacked_casts_tell()
    ensures { HijackedCastsTell }
{}

/// The cast of a class that isn't hijacked gives a value other than null exactly where the world says that it is an instance. It costs two units, and
/// three where the test of the class calls tests of kinds.
pub fn casts_are_of_the_world()
    ensures { CastsAreOfTheWorld }
{}

/// The cast of a hijacked class gives a value other than null exactly where the world says that it is an instance, in a world where no class writes a
/// hijacked class: a byte or a short is a number in its range.
pub fn hijacked_casts_are_of_the_world()
    ensures { HijackedCastsAreOfTheWorld }
{}

/// With too few units casts are going, without a line.
pub fn short_casts_go()
    ensures { ShortCastsGo }
{}

/// A program made of pieces: casts of null and of values of the kind or the class; and at last a cast that throws, one of a kind and one of a class.
pub fn worked_casts()
    ensures within_3 { js_shows worked_kind_cast (codes "main") 3 ≡ record { lines = worked_lines; end = Going } }
    ensures kind_within_4 { js_shows worked_kind_cast (codes "main") 4 ≡ record { lines = worked_lines ++ codes "int" ∷ []; end = Done (uncaught (object_of (codes "java.lang.ClassCastException"))) } }
    ensures class_within_4 { js_shows worked_class_cast (codes "main") 4 ≡ record { lines = worked_lines ++ codes "A" ∷ []; end = Done (uncaught (object_of (codes "java.lang.ClassCastException"))) } }
{}
