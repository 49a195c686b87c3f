//! The theorem on classes, for classes as they are judged before they are linked: read from files, without a local rule that they
//! break, and with methods that are typed.
//!
//! `specs/` has what is asked of the classes and of the methods. The functions here are laws: they do nothing when they run, and their clauses are
//! theorems.
#![tactic(auto)]

ghost use Rattle.std.specs.Prelude.{◌≡◌, true, ℕ, List, [], ◌∷◌, map};
ghost use Rattle.std.specs.List.{All, Contains};
ghost use Rattle.outcomes.specs.Agreement.{Agree};
ghost use Rattle.sj_agree.specs.Shows.{initializers, ir_shows};
ghost use Rattle.sj_agree.specs.World.{World};
ghost use Rattle.js_mean.specs.Shows.{file_of, js_shows};
ghost use Rattle.js_tree.specs.Rules.{IsPiece, IsModule};
ghost use Rattle.js_tree.specs.Spelling.{Spells};
ghost use Rattle.sj_agree.specs.Agrees.{Agrees};
ghost use Rattle.sj_names.specs.declared.entry_points.EntryPoint.{EntryPoint};
ghost use Rattle.sj_trees.specs.declared.classes.ClassDef.{ClassDef};
ghost use Rattle.agree_programs.specs.EmittedMethods.{EmittedMethod, HaveOwnMembers};
ghost use Rattle.agree_programs.specs.Emitted.{piece_of_method, module_with};
ghost use Rattle.agree_programs.specs.Files.{program_with};
ghost use Rattle.agree_programs.specs.Linked.{have_functions};
ghost use Rattle.agree_classes.specs.Programs.{IsAccepted};
ghost use Rattle.sj_world.specs.Laws.{IsPlain};
ghost use Rattle.agree_classes.specs.Judged.{IsJudgedClass, IsJudgedMethod};
ghost use Rattle.agree_classes.specs.Written.{items_with};

/// The theorem on classes with bodies that keep the rules: take methods, no two of one member, each of a class that breaks none of the local rules, with a body that keeps
/// the rules by classes of which none writes a hijacked class and none stands above `java.lang.Object`, these or any others; and let the initializers of a public module be among them. Then the
/// file that has their functions in this order and behind them the calls of the initializers shows of the public module what the classes
/// show: what the one shows within any bound the other shows within some bound, and the other way round, and neither is wrong at any bound.
pub fn typed_classes_agree()
    ensures { (w typing : World) → IsPlain typing → (entries : List EntryPoint) (id : List ℕ) (fs : List EmittedMethod) → ((e : EmittedMethod) → Contains fs e → IsAccepted w typing fs e) → HaveOwnMembers fs → have_functions fs (initializers entries id) ≡ true → Agree (ir_shows w entries id) (js_shows (program_with id fs (initializers entries id)) id) }
{}

/// Take classes that were read from files and break none of the local rules, and methods of theirs, no two of one member and the initializers of a
/// public module among them, that are typed among the classes and are of the forms that are built, with calls of these methods alone. Then the
/// file that has their functions in this order and behind them the calls of the initializers shows of the public module what the classes show:
/// what the one shows within any bound the other shows within some bound, and the other way round, and neither is wrong at any bound.
pub fn judged_classes_agree()
    ensures { (w : World) (entries : List EntryPoint) (id : List ℕ) (fs : List EmittedMethod) → ((c : ClassDef) → Contains w c → IsJudgedClass c) → ((e : EmittedMethod) → Contains fs e → IsJudgedMethod w fs e) → HaveOwnMembers fs → have_functions fs (initializers entries id) ≡ true → Agree (ir_shows w entries id) (js_shows (program_with id fs (initializers entries id)) id) }
{}

/// The items of the module of methods are those of their pieces, as `member_piece` gives them, and behind them the calls of the initializers.
pub fn modules_are_made_of_pieces()
    ensures { (fs : List EmittedMethod) (es : List EntryPoint) → (module_with fs es).items ≡ items_with (map piece_of_method fs) es }
{}

/// Where each piece keeps the rules of printing, which `member_piece` gives, and each initializer's method is among those of the pieces, their module
/// keeps them.
pub fn modules_keep_the_rules()
    ensures { (fs : List EmittedMethod) (es : List EntryPoint) → All IsPiece (map piece_of_method fs) → have_functions fs es ≡ true → IsModule (module_with fs es) }
{}

/// The theorem down to the bytes: with the premises of `judged_classes_agree`, each file that spells that module agrees with the classes, as it is
/// read.
pub fn judged_files_agree()
    ensures { (w : World) (entries : List EntryPoint) (id : List ℕ) (fs : List EmittedMethod) (bytes : List ℕ) → ((c : ClassDef) → Contains w c → IsJudgedClass c) → ((e : EmittedMethod) → Contains fs e → IsJudgedMethod w fs e) → HaveOwnMembers fs → have_functions fs (initializers entries id) ≡ true → Spells (module_with fs (initializers entries id)) bytes → Agrees w entries (record { name = file_of id; bytes = bytes } ∷ []) id }
{}
