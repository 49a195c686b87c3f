//! The meaning of the emitted code, after ECMA-262, 11th edition (2020), with a bound on the depth of calls and the turns of loops.
//!
//! `specs/` has values, states and scopes, the meaning of each production, what makes a file wrong before anything runs, and what the
//! files of a program show. Whatever the standard answers by an error of its own is wrong, and so is what comes to a value that is none of
//! the subset's: a Number that isn't whole, a function of the standard, a BigInt of more than 128 bits. The functions here are laws.
#![tactic(auto)]

ghost use Rattle.std.specs.Prelude.{◌≡◌, [], ◌∷◌, pos, negsuc, codes, Some};
ghost use Rattle.outcomes.specs.Outcome.{Going, Wrong, Done, done, going, wrong};
ghost use Rattle.outcomes.specs.Shown.{normal, uncaught};
ghost use Rattle.outcomes.specs.Shown as shown;
ghost use Rattle.js_tree.specs.Terms.{number_literal, big_literal, undefined_literal, list_of, no_expressions};
ghost use Rattle.js_mean.specs.Shows.{js_shows};
ghost use Rattle.js_mean.specs.States.{gives, number, undefined};
ghost use Rattle.js_mean.specs.Meaning.{opening};
ghost use Rattle.js_mean.specs.Values.{given, values, expected};
ghost use Rattle.js_mean.specs.Values as worked;
ghost use Rattle.js_mean.specs.ClassRows as classes;
ghost use Rattle.js_mean.specs.ThrowRows as throwing;
ghost use Rattle.js_mean.specs.Rows.{
  hi_program,
  again_program,
  undeclared_program,
  twice_declared_program,
  argument_program,
  declared_below_program,
  import_program,
  circle_program,
  circular_name_program,
  one_function,
  called_with,
  called_without,
  returns_parameter,
  writes_itself,
  writes_before_start,
  triples,
  counts,
  falls,
  breaks_out,
  writes_constant,
  uses_before_start,
  shadows,
  remainder_by_four,
  bare_ratio,
};

/// Worked programs of the emitted code; the function does nothing when it runs. A function that logs `hi` has shown nothing within the
/// bound 0 and all within the bound 1; one that logs `x` and calls itself has logged it `n - 1` times within the bound `n`, and is
/// going; a call of a name that nothing declares is wrong behind what was logged; so is one of a name that the function itself declares further
/// down, also where another function has it; a module that declares a name twice is wrong before anything runs, and so is one that isn't there,
/// or that imports what isn't exported; what is imported runs first, also in a circle; an argument is evaluated before the call, also where no
/// parameter takes it.
pub fn worked_programs()
    ensures hi_within_0 { js_shows hi_program (codes "main") 0 ≡ record { lines = []; end = Going } }
    ensures hi_within_1 { js_shows hi_program (codes "main") 1 ≡ record { lines = codes "hi" ∷ []; end = Done normal } }
    ensures again_within_1 { js_shows again_program (codes "main") 1 ≡ record { lines = []; end = Going } }
    ensures again_within_2 { js_shows again_program (codes "main") 2 ≡ record { lines = codes "x" ∷ []; end = Going } }
    ensures again_within_5 { js_shows again_program (codes "main") 5 ≡ record { lines = codes "x" ∷ codes "x" ∷ codes "x" ∷ codes "x" ∷ []; end = Going } }
    ensures undeclared { js_shows undeclared_program (codes "main") 1 ≡ record { lines = codes "x" ∷ []; end = Wrong } }
    ensures declared_below { js_shows declared_below_program (codes "main") 2 ≡ record { lines = []; end = Wrong } }
    ensures twice_declared { js_shows twice_declared_program (codes "main") 1 ≡ record { lines = []; end = Wrong } }
    ensures no_file { js_shows hi_program (codes "other") 1 ≡ record { lines = []; end = Wrong } }
    ensures import { js_shows (import_program (codes "f_" ∷ [])) (codes "main") 1 ≡ record { lines = codes "lib" ∷ codes "f" ∷ []; end = Done normal } }
    ensures not_exported { js_shows (import_program []) (codes "main") 1 ≡ record { lines = []; end = Wrong } }
    ensures circle { js_shows circle_program (codes "main") 1 ≡ record { lines = codes "lib" ∷ codes "main" ∷ []; end = Done normal } }
    ensures circular_name { js_shows circular_name_program (codes "main") 1 ≡ record { lines = []; end = Wrong } }
    ensures argument_first { js_shows argument_program (codes "main") 1 ≡ record { lines = codes "f" ∷ codes "g" ∷ []; end = Done normal } }
{}

/// Worked classes. A method runs by the class of the object, also where one of a superclass calls it; a constructor costs a unit, and `super()`
/// another; a marker is found on the classes that have it; and a class can't extend one that hasn't started, but can extend what another name holds.
pub fn worked_classes()
    ensures family_within_1 { js_shows (classes.family) (codes "main") 1 ≡ record { lines = []; end = Going } }
    ensures family_within_2 { js_shows (classes.family) (codes "main") 2 ≡ record { lines = codes "a" ∷ codes "b" ∷ codes "yes" ∷ codes "no" ∷ []; end = Done normal } }
    ensures too_early { js_shows (classes.too_early) (codes "main") 2 ≡ record { lines = []; end = Wrong } }
    ensures other_name { js_shows (classes.other_name) (codes "main") 2 ≡ record { lines = codes "a" ∷ []; end = Done normal } }
    ensures name_inside { js_shows (classes.name_inside) (codes "main") 2 ≡ record { lines = codes "same" ∷ []; end = Done normal } }
{}

/// Worked programs with classes and objects. A class extends one that is imported; an imported binding is seen to change; a constructor without
/// `super()` makes nothing, and a second `super()` is wrong; a function of the standard is no value. A function that is called by a
/// property has the object as its `this`, and one that is called by its name has undefined. A value that nothing catches ends the program, and an object is shown by
/// its marker, which is that of a class: one with the marker of `java.lang.Character` as the char that its property `c` holds.
pub fn worked_objects()
    ensures imported_class { js_shows (throwing.imported_class) (codes "main") 2 ≡ record { lines = codes "ab" ∷ codes "yes" ∷ codes "no" ∷ codes "yes" ∷ codes "no" ∷ codes "0" ∷ codes "1" ∷ []; end = Done normal } }
    ensures imported_class_within_1 { js_shows (throwing.imported_class) (codes "main") 1 ≡ record { lines = []; end = Going } }
    ensures super_once { js_shows (throwing.supers (throwing.once)) (codes "main") 2 ≡ record { lines = codes "x" ∷ []; end = Done normal } }
    ensures super_twice { js_shows (throwing.supers (throwing.twice)) (codes "main") 2 ≡ record { lines = codes "x" ∷ []; end = Wrong } }
    ensures no_super { js_shows (throwing.supers []) (codes "main") 2 ≡ record { lines = codes "x" ∷ []; end = Wrong } }
    ensures on_object { js_shows (throwing.on_object) (codes "main") 1 ≡ record { lines = codes "object" ∷ codes "x" ∷ codes "undefined" ∷ []; end = Done normal } }
    ensures literal { js_shows (throwing.literal) (codes "main") 1 ≡ record { lines = codes "ab" ∷ codes "undefined" ∷ []; end = Wrong } }
    ensures thrown_object { js_shows (throwing.throws_object (codes "i_a_B$24") undefined_literal) (codes "main") 2 ≡ record { lines = []; end = Done (uncaught (shown.object_of (codes "a.B$"))) } }
    ensures thrown_char { js_shows (throwing.throws_object (codes "i_java_lang_Character") (number_literal (pos 97))) (codes "main") 2 ≡ record { lines = []; end = Done (uncaught (shown.char 97)) } }
    ensures thrown_no_char { js_shows (throwing.throws_object (codes "i_java_lang_Character") undefined_literal) (codes "main") 2 ≡ record { lines = []; end = Wrong } }
    ensures no_marker { js_shows (throwing.throws_object (codes "i_$41") undefined_literal) (codes "main") 2 ≡ record { lines = []; end = Wrong } }
    ensures no_text { js_shows (throwing.throws_object (codes "i_$ff") undefined_literal) (codes "main") 2 ≡ record { lines = []; end = Wrong } }
    ensures no_byte { js_shows (throwing.throws_object (codes "i_$g0") undefined_literal) (codes "main") 2 ≡ record { lines = []; end = Wrong } }
    ensures thrown_number { js_shows (throwing.throws_value (number_literal (negsuc 2147483647))) (codes "main") 1 ≡ record { lines = codes "x" ∷ []; end = Done (uncaught (shown.number (negsuc 2147483647))) } }
    ensures thrown_long { js_shows (throwing.throws_value (big_literal (pos 5))) (codes "main") 1 ≡ record { lines = codes "x" ∷ []; end = Done (uncaught (shown.long (pos 5))) } }
    ensures thrown_array { js_shows (throwing.throws_value (list_of no_expressions)) (codes "main") 1 ≡ record { lines = codes "x" ∷ []; end = Wrong } }
{}

/// Worked functions of one parameter with `try`, properties and arrays. What a block throws is caught, and the name of the handler hides one
/// around it; a finalizer runs behind a return, and its own jump takes the place of the block's end; what is going or wrong is neither caught nor
/// finished. An array gets longer where an item is set behind its end. A property of undefined is wrong before the right side is evaluated.
pub fn worked_tries()
    ensures catches { given (called_with (throwing.catches) 1 (pos 4)).end ≡ Some (number (pos 5)) }
    ensures hides { given (called_with (throwing.hides) 1 (pos 4)).end ≡ Some (number (pos 1)) }
    ensures finishes { given (called_with (throwing.finishes) 1 (pos 4)).end ≡ Some (number (pos 4)) }
    ensures overrides { given (called_with (throwing.overrides) 1 (pos 4)).end ≡ Some (number (pos 2)) }
    ensures throws_again { given (called_with (throwing.throws_again) 1 (pos 4)).end ≡ Some (number (pos 2)) }
    ensures breaks_away { given (called_with (throwing.breaks_away) 1 (pos 4)).end ≡ Some (number (pos 3)) }
    ensures going { called_with (throwing.never_finishes) 3 (pos 4) ≡ going }
    ensures no_wrong { called_with (throwing.catches_no_wrong) 1 (pos 4) ≡ wrong }
    ensures grows { given (called_with (throwing.grows) 1 (pos 4)).end ≡ Some (number (pos 7)) }
    ensures below_zero { called_with (throwing.sets_below_zero) 1 (pos 4) ≡ wrong }
    ensures on_undefined { called_with (throwing.sets_on undefined_literal (throwing.says_y)) 1 (pos 4) ≡ wrong }
    ensures on_number { called_with (throwing.sets_on (throwing.x_use) (throwing.says_y)) 1 (pos 4) ≡ record { lines = codes "y" ∷ []; end = Wrong } }
{}

/// Worked functions of one parameter. A loop that triples gives 27 for 1 within the bound 4: one unit is for the call, and three are for the
/// turns behind the first. A case without `break` falls into the next, and a break leaves the switch. A break to a label leaves the loops inside it. A
/// constant can't be written, and a binding that hasn't started can be neither written nor read, also where one around it has that name; behind a
/// block the outer binding is there again. A function at the top can be written. A missing argument is undefined, and so is what a function
/// without a return gives. A remainder has the dividend's sign, and a quotient that isn't under `| 0` has no meaning.
pub fn worked_functions()
    ensures loop_of_1 { called_with triples 4 (pos 1) ≡ done (gives (number (pos 27)) (opening (one_function triples))) }
    ensures loop_going { called_with triples 3 (pos 1) ≡ going }
    ensures loop_without_condition { called_with counts 3 (pos 8) ≡ done (gives (number (pos 11)) (opening (one_function counts))) }
    ensures falls_through { called_with falls 1 (negsuc 0) ≡ done (gives (number (pos 20)) (opening (one_function falls))) }
    ensures default { called_with falls 1 (pos 3) ≡ done (gives (number (pos 30)) (opening (one_function falls))) }
    ensures break_to_label { called_with breaks_out 1 (negsuc 0) ≡ done (gives (number (pos 2)) (opening (one_function breaks_out))) }
    ensures return_from_loop { called_with breaks_out 1 (pos 0) ≡ done (gives (number (pos 1)) (opening (one_function breaks_out))) }
    ensures constant { called_with writes_constant 1 (pos 0) ≡ wrong }
    ensures before_start { called_with uses_before_start 1 (pos 0) ≡ wrong }
    ensures write_before_start { called_with writes_before_start 1 (pos 0) ≡ wrong }
    ensures itself { given (called_with writes_itself 1 (pos 5)).end ≡ Some (number (pos 5)) }
    ensures missing_argument { called_without returns_parameter 1 ≡ done (gives undefined (opening (one_function returns_parameter))) }
    ensures no_return { called_with [] 1 (pos 0) ≡ done (gives undefined (opening (one_function []))) }
    ensures shadowed { called_with shadows 1 (pos 0) ≡ done (gives (number (pos 3)) (opening (one_function shadows))) }
    ensures remainder { called_with remainder_by_four 1 (negsuc 6) ≡ done (gives (number (negsuc 2)) (opening (one_function remainder_by_four))) }
    ensures ratio { called_with bare_ratio 1 (pos 4) ≡ wrong }
{}

/// Worked expressions, each by itself. Which values are true; `&&`, `||` and a conditional, which evaluate no more than they need; `===` and
/// `!==`; comparisons; sums, differences and products, which are exact or wrong; the operators on bits; quotients under `| 0`; texts; BigInts;
/// `typeof`; arrays; and properties of values without any.
pub fn worked_expressions()
    ensures negations { values worked.negations ≡ expected worked.negations }
    ensures choices { values worked.choices ≡ expected worked.choices }
    ensures equalities { values worked.equalities ≡ expected worked.equalities }
    ensures comparisons { values worked.comparisons ≡ expected worked.comparisons }
    ensures sums { values worked.sums ≡ expected worked.sums }
    ensures bits { values worked.bits ≡ expected worked.bits }
    ensures ratios { values worked.ratios ≡ expected worked.ratios }
    ensures joined { values worked.joined ≡ expected worked.joined }
    ensures on_bigs { values worked.on_bigs ≡ expected worked.on_bigs }
    ensures compared_bigs { values worked.compared_bigs ≡ expected worked.compared_bigs }
    ensures converted { values worked.converted ≡ expected worked.converted }
    ensures kinds { values worked.kinds ≡ expected worked.kinds }
    ensures arrays { values worked.arrays ≡ expected worked.arrays }
    ensures properties { values worked.properties ≡ expected worked.properties }
{}
