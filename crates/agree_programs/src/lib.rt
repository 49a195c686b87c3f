//! Bodies that keep the rules are never wrong, so the agreement of the two meanings holds of programs of them without a condition on their ends.
//!
//! `specs/` has what is asked of the methods of a program. The functions here are laws: they do nothing when they run, and their clauses are
//! theorems.
#![tactic(auto)]

ghost use Rattle.std.specs.Prelude.{◌≡◌, ℕ, true, List, [], ◌∷◌, codes};
ghost use Rattle.std.specs.List.{Contains};
ghost use Rattle.outcomes.specs.Agreement.{Agree};
ghost use Rattle.outcomes.specs.Outcome.{Done, Going};
ghost use Rattle.outcomes.specs.Shown.{normal};
ghost use Rattle.agree_soundness.specs.Rows.{once};
ghost use Rattle.agree_soundness.specs.Shows.{initializers, ir_shows};
ghost use Rattle.agree_soundness.specs.World.{World};
ghost use Rattle.js_mean.specs.Proper.{is_proper_module};
ghost use Rattle.js_mean.specs.Shows.{js_shows};
ghost use Rattle.sj_names.specs.declared.entry_points.EntryPoint.{EntryPoint};
ghost use Rattle.agree_soundness.specs.EmittedMethods.{EmittedMethod, HaveOwnMembers};
ghost use Rattle.agree_soundness.specs.Emitted.{module_with};
ghost use Rattle.agree_calls.specs.Files.{program_with};
ghost use Rattle.agree_programs.specs.Linked.{have_functions, IsRight, IsWhole};
ghost use Rattle.agree_soundness.specs.SjWorldLaws.{IsPlain};
ghost use Rattle.agree_programs.specs.Worked.{worked_world, worked_methods};

/// The theorem on programs of methods whose bodies keep the rules: take a module that has the functions of these methods in this order and then calls the initializers
/// of a public module, and that has no early error. Let each method be that of its member in the classes, with the types that its name
/// tells, with a body that keeps the rules by classes of which none writes a hijacked class and none stands above `java.lang.Object`, these or any others, and calls these methods alone; and let the initializers be among them. Then
/// the file shows of the public module what the classes show: what the one shows within any bound the other shows within some bound, and the
/// other way round, and neither is wrong at any bound.
pub fn program_of_bodies_agrees()
    ensures { (w typing : World) → IsPlain typing → (entries : List EntryPoint) (id : List ℕ) (fs : List EmittedMethod) → is_proper_module (module_with fs (initializers entries id)) ≡ true → ((e : EmittedMethod) → Contains fs e → IsRight w typing fs e) → have_functions fs (initializers entries id) ≡ true → Agree (ir_shows w entries id) (js_shows (program_with id fs (initializers entries id)) id) }
{}

/// The premises of the theorem on programs can be met: `main` tests whether `f`, which triples in a loop, gives 27 for 1. The class and its
/// file both log `yes` within the bound 5, one unit for each call and three for the turns behind the first, and are going within the bound 4.
pub fn worked_program_agrees()
    ensures agrees { Agree (ir_shows worked_world once (codes "main")) (js_shows (program_with (codes "main") worked_methods once) (codes "main")) }
    ensures class_within_4 { ir_shows worked_world once (codes "main") 4 ≡ record { lines = []; end = Going } }
    ensures file_within_4 { js_shows (program_with (codes "main") worked_methods once) (codes "main") 4 ≡ record { lines = []; end = Going } }
    ensures class_within_5 { ir_shows worked_world once (codes "main") 5 ≡ record { lines = codes "yes" ∷ []; end = Done normal } }
    ensures file_within_5 { js_shows (program_with (codes "main") worked_methods once) (codes "main") 5 ≡ record { lines = codes "yes" ∷ []; end = Done normal } }
{}

/// The theorem on programs without a premise on the file: take methods, no two of one member, each of which is that of its member in the classes, with the
/// types that its name tells, with a body that keeps the rules by classes of which none writes a hijacked class and none stands above `java.lang.Object`, these or any others, and calls these methods alone; and let the
/// initializers of a public module be among them. Then the file that has their functions in this order and behind them the calls of the
/// initializers shows of the public module what the classes show: what the one shows within any bound the other shows within some bound, and
/// the other way round, and neither is wrong at any bound.
pub fn linked_bodies_agree()
    ensures { (w typing : World) → IsPlain typing → (entries : List EntryPoint) (id : List ℕ) (fs : List EmittedMethod) → ((e : EmittedMethod) → Contains fs e → IsWhole w typing fs e) → HaveOwnMembers fs → have_functions fs (initializers entries id) ≡ true → Agree (ir_shows w entries id) (js_shows (program_with id fs (initializers entries id)) id) }
{}

/// Where bodies keep the rules by no classes at all, so that all they take of subtyping is that a type is below itself and any, null below each class, and a primitive type below its own, nothing is asked of the classes.
pub fn bodies_without_classes_agree()
    ensures { (w : World) (entries : List EntryPoint) (id : List ℕ) (fs : List EmittedMethod) → ((e : EmittedMethod) → Contains fs e → IsWhole w [] fs e) → HaveOwnMembers fs → have_functions fs (initializers entries id) ≡ true → Agree (ir_shows w entries id) (js_shows (program_with id fs (initializers entries id)) id) }
{}

/// The premises of the theorem on programs without one on the file can be met: by the two methods of the worked program.
pub fn worked_bodies_agree()
    ensures { Agree (ir_shows worked_world once (codes "main")) (js_shows (program_with (codes "main") worked_methods once) (codes "main")) }
{}

/// And so can those of the theorem for bodies without classes: the same two methods keep the rules by none.
pub fn worked_bodies_need_no_classes()
    ensures { (e : EmittedMethod) → Contains worked_methods e → IsWhole worked_world [] worked_methods e }
{}
