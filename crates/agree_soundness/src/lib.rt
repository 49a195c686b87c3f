//! Type soundness with a heap: bodies that keep the rules are never wrong, and what they give or throw is of its type, also where they make objects and arrays,
//! read their fields and items, call what runs on them, and throw.
//!
//! `specs/` has what is asked of members, and what a world has where objects are used. The functions here are laws: they do nothing when they run, and their
//! clauses are theorems.
#![tactic(auto)]

ghost use Rattle.std.specs.Prelude.{◌≡◌, ℕ, Bool, true, false, List, Some, codes};
ghost use Rattle.std.specs.List.{Contains, list_any};
ghost use Rattle.agree_soundness.specs.Laws.{ObjectLaws};
ghost use Rattle.agree_soundness.specs.Rules.{RightMember};
ghost use Rattle.agree_soundness.specs.Worked.{object_world, object_use, array_world, array_use};
ghost use Rattle.agree_soundness.specs.Worlds.{AreClassesKept, HasFields, WritesInterfaces, ObjectWorld};
ghost use Rattle.agree_early_errors.specs.Built.{Usable, members_alone};
ghost use Rattle.dispatch_laws.specs.Dispatch.{chain_of};
ghost use Rattle.dispatch_laws.specs.Rows.{once};
ghost use Rattle.dispatch_laws.specs.Shows.{initializers, ir_shows};
ghost use Rattle.dispatch_laws.specs.World.{World};
ghost use Rattle.outcomes.specs.Agreement.{IsNotWrong};
ghost use Rattle.sj_local.specs.ClassRules.{keeps_hijacked};
ghost use Rattle.sj_local.specs.MemberRules.{breaks_field};
ghost use Rattle.sj_names.specs.Same.{is_same_text};
ghost use Rattle.sj_names.specs.declared.entry_points.EntryPoint.{EntryPoint};
ghost use Rattle.sj_names.specs.declared.method_names.Member.{Member};
ghost use Rattle.agree_early_errors.specs.Emitted.{initializer_member};
ghost use Rattle.sj_trees.specs.Types.{class_type};
ghost use Rattle.sj_trees.specs.declared.classes.ClassDef.{ClassDef};
ghost use Rattle.sj_trees.specs.declared.classes.FieldDef.{FieldDef};
ghost use Rattle.sj_trees.specs.declared.types.IrType.{IrType};
ghost use Rattle.sj_trees.specs.declared.types.IrType.TheVariants.{Class};
ghost use Rattle.dispatch_laws.specs.Ancestors.{IsOnChain};
ghost use Rattle.dispatch_laws.specs.Known.{Name, Classes, class_of, is_hijacked};
ghost use Rattle.dispatch_laws.specs.SjWorldLaws.{IsPlain};
ghost use Rattle.dispatch_laws.specs.Refusals.{HasNoCycle};
ghost use Rattle.dispatch_laws.specs.Subtypes.{hijacked_class, IsSub};

/// Where the members that can be called keep the rules, by classes of which none writes a hijacked class and none stands above `java.lang.Object`, and the world has what the laws on objects ask, what a public module
/// shows whose initializers can be called is wrong at no bound. The laws ask that these are the classes of the world where code casts, writes items of arrays or calls members on receivers.
pub fn modules_are_never_wrong()
    ensures { (w typing : World) → IsPlain typing → (has : Usable) → ObjectLaws w typing has → ((m : Member) → has.linked m ≡ true → RightMember w typing has m) → (entries : List EntryPoint) (id : List ℕ) → ((e : EntryPoint) → Contains (initializers entries id) e → has.linked (initializer_member e) ≡ true) → (n : ℕ) → IsNotWrong (ir_shows w entries id n).end }
{}

/// Where nothing but static members is used, the laws on objects ask nothing.
pub fn members_alone_ask_nothing()
    ensures { (w typing : World) (linked : Member → Bool) → ObjectLaws w typing (members_alone linked) }
{}

/// What is below a class whose instances may have fields, in a world whose classes keep the rules on superclasses and on hijacked classes: a class has it on its
/// chain of superclasses, also on that which is worked out, and no primitive type stands there; where what is written as an interface on the way is one.
pub fn classes_with_fields_are_on_chains()
    ensures classes { (w : Classes) → AreClassesKept w → (c d : Name) → HasFields w c → is_hijacked d ≡ false → WritesInterfaces w d → IsSub w (Class d) (class_type c) → IsOnChain w d c }
    ensures chains { (w : Classes) → AreClassesKept w → HasNoCycle w → (c d : Name) → HasFields w c → is_hijacked d ≡ false → WritesInterfaces w d → IsSub w (Class d) (class_type c) → list_any (is_same_text c) (chain_of w d) ≡ true }
    ensures primitives { (w : Classes) → AreClassesKept w → (c : Name) (o : IrType) (h : Name) → HasFields w c → hijacked_class o ≡ Some h → WritesInterfaces w h → IsSub w o (class_type c) → ⊥ }
{}

/// A class of the world that has an instance field, and keeps the rules on hijacked classes and on fields, is one whose instances may have fields.
pub fn classes_with_an_instance_field_have_fields()
    ensures { (w : Classes) (c : ClassDef) (f : FieldDef) → class_of w c.name ≡ Some c → keeps_hijacked c ≡ true → breaks_field c f ≡ false → f.is_static ≡ false → HasFields w c.name }
{}

/// The laws on objects hold in a world whose classes keep the local rules and stand on no cycle, where what is made isn't hijacked, what can be read is a field
/// of a class with fields or a static field of its class, and whatever is written as an interface above these and above the hijacked classes is one.
pub fn object_worlds_have_the_laws()
    ensures { (w : Classes) (has : Usable) → ObjectWorld w has → ObjectLaws w w has }
{}

/// The premises can be met where objects are used: by a world whose `main` makes an object and calls a method on it that gives its field. What it shows is wrong at
/// no bound.
pub fn worked_objects()
    ensures laws { ObjectLaws object_world object_world object_use }
    ensures never_wrong { (n : ℕ) → IsNotWrong (ir_shows object_world once (codes "main") n).end }
{}

/// And where arrays are used: by a world whose `main` asks for the length of one that it makes.
pub fn worked_arrays()
    ensures laws { ObjectLaws array_world array_world array_use }
    ensures never_wrong { (n : ℕ) → IsNotWrong (ir_shows array_world once (codes "main") n).end }
{}
