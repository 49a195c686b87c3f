//! The agreement of the two meanings for bodies: what a tree comes to by the IR, the statements and expressions that are emitted for it come to
//! by ECMA-262.
//!
//! `specs/` has what is asked of a tree where it is written. `proofs/` has the induction over trees, one level over the level below, on which
//! the agreement for calls stands. The function here is a law: it does nothing when it runs, and its clauses are theorems.
#![tactic(auto)]

ghost use Rattle.std.specs.Prelude.{◌≡◌, [], ◌∷◌, pos, negsuc};
ghost use Rattle.outcomes.specs.Outcome.{done, going};
ghost use Rattle.agree_plain_trees.specs.Rows.{object_with, int_method, int_result, triples, triples_first, leaves_loop, matches, reads_then_writes};
ghost use Rattle.agree_plain_trees.specs.Shows.{outside};
ghost use Rattle.agree_plain_trees.specs.States as ir;
ghost use Rattle.agree_plain_trees.specs.World as ir_world;
ghost use Rattle.js_mean.specs.Meaning as js_meaning;
ghost use Rattle.js_mean.specs.States as js;
ghost use Rattle.agree_bodies.specs.Rows.{int_program, int_function_result};

/// Worked bodies and their functions come to the same by both meanings: the loop that triples gives 27 for 1, and it is going within
/// the same bounds; a value leaves a loop by a label; a match takes a case; and an operand is read before a later one writes.
pub fn both_meanings_of_bodies()
    ensures loop_by_the_ir { int_result triples 4 (pos 1) ≡ done (ir.ends (ir.gives (ir.number (pos 27))) outside (ir_world.opening (object_with (int_method triples ∷ []) ∷ []))) }
    ensures loop_by_the_function { int_function_result triples 4 (pos 1) ≡ done (js.gives (js.number (pos 27)) (js_meaning.opening (int_program triples))) }
    ensures going_by_the_ir { int_result triples 3 (pos 1) ≡ going }
    ensures going_by_the_function { int_function_result triples 3 (pos 1) ≡ going }
    ensures test_behind { int_function_result triples_first 1 (pos 10) ≡ done (js.gives (js.number (pos 30)) (js_meaning.opening (int_program triples_first))) }
    ensures label { int_function_result leaves_loop 1 (negsuc 1) ≡ done (js.gives (js.number (negsuc 5)) (js_meaning.opening (int_program leaves_loop))) }
    ensures key { int_function_result matches 1 (negsuc 0) ≡ done (js.gives (js.number (pos 10)) (js_meaning.opening (int_program matches))) }
    ensures no_key { int_function_result matches 1 (pos 3) ≡ done (js.gives (js.number (pos 30)) (js_meaning.opening (int_program matches))) }
    ensures order { int_function_result reads_then_writes 1 (pos 2) ≡ done (js.gives (js.number (pos 7)) (js_meaning.opening (int_program reads_then_writes))) }
{}
