//! What is written for bodies has no early error, whatever it means.
//!
//! `specs/` has methods whose functions are emitted, and a module of them. `proofs/` has what is written for a tree, in one induction: it declares each variable
//! once, counts onward, and has a target for each jump. The functions here are laws: they do nothing when they run, and their clauses are theorems.
#![tactic(auto)]

ghost use Rattle.std.specs.Prelude.{◌≡◌, true, List};
ghost use Rattle.std.specs.List.{Contains};
ghost use Rattle.agree_early_errors.specs.Once.{DefinesOnce};
ghost use Rattle.js_mean.specs.Proper.{is_proper_item, is_proper_module};
ghost use Rattle.sj_names.specs.declared.entry_points.EntryPoint.{EntryPoint};
ghost use Rattle.agree_early_errors.specs.EmittedMethods.{EmittedMethod, HaveOwnMembers};
ghost use Rattle.agree_early_errors.specs.Emitted.{function_item_of, module_with, IsNamed};

/// The emitted function of a method has no early error: no list of statements declares a name twice, no label stands inside itself, and each
/// break has a target. This is so where no two definitions of the body have one name, no parameter is defined again or stands twice, no
/// label stands inside itself, and each jump is to a label around it.
pub fn functions_have_no_early_error()
    ensures { (e : EmittedMethod) → DefinesOnce e.definition e.its_body → is_proper_item (function_item_of e) ≡ true }
{}

/// The module of the functions of such methods, no two of one member, that calls any initializers has no early error.
pub fn modules_have_no_early_error()
    ensures { (fs : List EmittedMethod) (es : List EntryPoint) → ((e : EmittedMethod) → Contains fs e → IsNamed e) → HaveOwnMembers fs → is_proper_module (module_with fs es) ≡ true }
{}
