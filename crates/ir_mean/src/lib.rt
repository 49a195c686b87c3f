//! The meaning of the IR, with a bound on the depth of calls and the turns of loops.
//!
//! `specs/` has values and states, the meaning of each form of tree, and what the initializers of a public module show. Where no case applies a
//! tree is wrong; no tree of a program that is accepted comes to such a place. The functions here are laws.
#![tactic(auto)]

ghost use Rattle.std.specs.Prelude.{◌≡◌, true, false, [], ◌∷◌, pos, negsuc, codes, Some};
ghost use Rattle.outcomes.specs.Outcome.{Out, Going, Wrong, Done, done, going};
ghost use Rattle.outcomes.specs.Shown.{normal, uncaught, object_of};
ghost use Rattle.ir_mean.specs.Shows.{ir_shows};
ghost use Rattle.ir_mean.specs.Shows.{outside};
ghost use Rattle.ir_mean.specs.States.{ends, gives, number, reference};
ghost use Rattle.ir_mean.specs.World.{opening};
ghost use Rattle.ir_mean.specs.Values.{values, expected};
ghost use Rattle.ir_mean.specs.ObjectRows as objects;
ghost use Rattle.ir_mean.specs.Values as worked;
ghost use Rattle.ir_mean.specs.DispatchLaws.{AncestorsAreWorkedOut, SubtypesAreWorkedOut};
ghost use Rattle.ir_mean.specs.Rows.{
  hi_program,
  again_program,
  skip_program,
  once,
  twice,
  object_with,
  int_method,
  int_result,
  triples,
  triples_first,
  leaves_loop,
  matches,
  reads_then_writes,
};

/// Worked programs of the IR; the function does nothing when it runs. `main` that logs `hi` has shown nothing within the bound 0 and
/// all within the bound 1, once for each initializer, and a module without initializers shows nothing; `again` that logs `x` and calls
/// itself has logged it `n - 1` times within the bound `n`, and is going; to log what is no text is wrong.
pub fn worked_programs()
    ensures hi_within_0 { ir_shows hi_program once (codes "main") 0 ≡ record { lines = []; end = Going } }
    ensures hi_within_1 { ir_shows hi_program once (codes "main") 1 ≡ record { lines = codes "hi" ∷ []; end = Done normal } }
    ensures hi_twice { ir_shows hi_program twice (codes "main") 1 ≡ record { lines = codes "hi" ∷ codes "hi" ∷ []; end = Done normal } }
    ensures no_module { ir_shows hi_program once (codes "other") 1 ≡ record { lines = []; end = Done normal } }
    ensures again_within_1 { ir_shows again_program once (codes "main") 1 ≡ record { lines = []; end = Going } }
    ensures again_within_2 { ir_shows again_program once (codes "main") 2 ≡ record { lines = codes "x" ∷ []; end = Going } }
    ensures again_within_5 { ir_shows again_program once (codes "main") 5 ≡ record { lines = codes "x" ∷ codes "x" ∷ codes "x" ∷ codes "x" ∷ []; end = Going } }
    ensures no_text { ir_shows skip_program once (codes "main") 1 ≡ record { lines = []; end = Wrong } }
{}

/// Worked bodies with one parameter. The body `while (p < 10) { p = p * 3 }; p` gives 27 for 1 within the bound 4: one unit is for its call,
/// and three are for the turns behind the first; within the bound 3 it is going. A loop that tests
/// behind its body gives 30 for 10, where the other gives 10. A value leaves a loop by a label. A match takes the case of its key or the default. An
/// operand is read before a later one writes.
pub fn worked_bodies()
    ensures loop_of_1 { int_result triples 4 (pos 1) ≡ done (ends (gives (number (pos 27))) outside (opening (object_with (int_method triples ∷ []) ∷ []))) }
    ensures loop_going { int_result triples 3 (pos 1) ≡ going }
    ensures loop_of_10 { int_result triples 1 (pos 10) ≡ done (ends (gives (number (pos 10))) outside (opening (object_with (int_method triples ∷ []) ∷ []))) }
    ensures test_behind { int_result triples_first 1 (pos 10) ≡ done (ends (gives (number (pos 30))) outside (opening (object_with (int_method triples_first ∷ []) ∷ []))) }
    ensures label { int_result leaves_loop 1 (negsuc 1) ≡ done (ends (gives (number (negsuc 5))) outside (opening (object_with (int_method leaves_loop ∷ []) ∷ []))) }
    ensures key { int_result matches 1 (negsuc 0) ≡ done (ends (gives (number (pos 10))) outside (opening (object_with (int_method matches ∷ []) ∷ []))) }
    ensures no_key { int_result matches 1 (pos 3) ≡ done (ends (gives (number (pos 30))) outside (opening (object_with (int_method matches ∷ []) ∷ []))) }
    ensures order { int_result reads_then_writes 1 (pos 2) ≡ done (ends (gives (number (pos 7))) outside (opening (object_with (int_method reads_then_writes ∷ []) ∷ []))) }
{}

/// Worked trees, each by itself: the literals, each operator, each conversion, texts that are joined, what is the same, and blocks, labels and
/// branches.
pub fn worked_trees()
    ensures literals { values worked.literals ≡ expected worked.literals }
    ensures on_booleans { values worked.on_booleans ≡ expected worked.on_booleans }
    ensures on_ints { values worked.on_ints ≡ expected worked.on_ints }
    ensures on_bits { values worked.on_bits ≡ expected worked.on_bits }
    ensures compared { values worked.compared ≡ expected worked.compared }
    ensures converted { values worked.converted ≡ expected worked.converted }
    ensures in_order { values worked.in_order ≡ expected worked.in_order }
    ensures on_longs { values worked.on_longs ≡ expected worked.on_longs }
    ensures widened { values worked.widened ≡ expected worked.widened }
    ensures joined { values worked.joined ≡ expected worked.joined }
    ensures the_same { values worked.the_same ≡ expected worked.the_same }
{}

/// Worked bodies of `main` with objects. A constructor costs a unit, also that of an exception, whose message it is handed; making the object costs
/// none, and comes behind the constructor's arguments. A call goes by the class of the value, a sure receiver isn't checked, and a check comes in front of arguments. A constructor of a module class runs once. An index is checked
/// behind the value that is stored, and an element behind the index. A finalizer's own end takes the place of its block's.
pub fn worked_objects()
    ensures fields { objects.shown (objects.fields) 2 ≡ record { lines = codes "1" ∷ codes "0" ∷ codes "7" ∷ codes "0" ∷ codes "8" ∷ []; end = Done normal } }
    ensures constructor_going { objects.shown (objects.fields) 1 ≡ record { lines = []; end = Going } }
    ensures dispatches { objects.shown (objects.dispatches) 2 ≡ record { lines = codes "a" ∷ codes "b" ∷ codes "int" ∷ codes "i" ∷ codes "a" ∷ codes "b" ∷ codes "a" ∷ codes "i" ∷ []; end = Done normal } }
    ensures all_caught { objects.shown (objects.all_caught) 2 ≡ record { lines = codes "null" ∷ codes "/ by zero" ∷ codes "/ by zero" ∷ codes "B" ∷ codes "[[I" ∷ codes "undef" ∷ codes "1" ∷ codes "-1" ∷ codes "-3" ∷ codes "bad element" ∷ codes "gone;I;R" ∷ []; end = Done normal } }
    ensures exception_going { objects.shown (objects.all_caught) 1 ≡ record { lines = []; end = Going } }
    ensures uncaught { objects.shown (objects.uncaught) 2 ≡ record { lines = codes "null" ∷ []; end = Done (uncaught (object_of (codes "java.lang.NullPointerException"))) } }
    ensures sent_to_null { objects.shown (objects.sent_to_null) 2 ≡ record { lines = codes "null" ∷ []; end = Done (uncaught (object_of (codes "java.lang.NullPointerException"))) } }
    ensures made_last { objects.given (objects.made_last) 2 ≡ Some (reference 1) }
    ensures set_on_text { objects.shown (objects.set_on_text) 2 ≡ record { lines = []; end = Wrong } }
    ensures sent_to_text { objects.shown (objects.sent_to_text) 2 ≡ record { lines = []; end = Wrong } }
    ensures mutable_local { objects.shown (objects.sure_local true) 2 ≡ record { lines = codes "null" ∷ []; end = Done (uncaught (object_of (codes "java.lang.NullPointerException"))) } }
    ensures sure_local { objects.shown (objects.sure_local false) 2 ≡ record { lines = []; end = Wrong } }
    ensures order { objects.shown (objects.order) 2 ≡ record { lines = codes "index" ∷ codes "value" ∷ codes "0" ∷ []; end = Done (uncaught (object_of (codes "java.lang.ArrayIndexOutOfBoundsException"))) } }
    ensures modules { objects.shown (objects.modules) 2 ≡ record { lines = codes "loaded" ∷ codes "true" ∷ []; end = Done normal } }
    ensures arrays { objects.shown (objects.arrays) 1 ≡ record { lines = codes "0" ∷ codes "5" ∷ codes "2" ∷ codes "true" ∷ codes "false" ∷ codes "true" ∷ codes "true" ∷ codes "false" ∷ []; end = Done normal } }
    ensures tests { objects.shown (objects.tests) 2 ≡ record { lines = codes "true" ∷ codes "false" ∷ codes "true" ∷ codes "false" ∷ codes "true" ∷ codes "false" ∷ codes "true" ∷ codes "false" ∷ codes "true" ∷ codes "false" ∷ codes "true" ∷ codes "true" ∷ codes "0" ∷ [] ∷ []; end = Done normal } }
    ensures finals { objects.shown (objects.finals) 1 ≡ record { lines = codes "2" ∷ codes "f" ∷ codes "1" ∷ codes "2" ∷ codes "g" ∷ codes "3" ∷ []; end = Done normal } }
    ensures given_up { objects.shown (objects.given_up) 1 ≡ record { lines = codes "1" ∷ []; end = Done normal } }
{}

/// One class is worked out as an ancestor of another exactly where it is one in the world. No way without a repeat is longer than those that are
/// tried.
pub fn ancestors_are_worked_out()
    ensures { AncestorsAreWorkedOut }
{}

/// One type is worked out as a subtype of another exactly where it is one in the world.
pub fn subtypes_are_worked_out()
    ensures { SubtypesAreWorkedOut }
{}
