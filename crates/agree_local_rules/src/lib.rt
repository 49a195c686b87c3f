//! What the local rules of a class give for the bodies of its methods.
//!
//! `specs/` has what the methods of such classes have. The functions here are laws: they do nothing when they run, and their
//! clauses are theorems.
#![tactic(auto)]

ghost use Rattle.std.specs.Prelude.{◌≡◌, Some, None};
ghost use Rattle.std.specs.List.{Contains};
ghost use Rattle.sj_local.specs.Broken.{FirstBroken};
ghost use Rattle.sj_trees.specs.Term.{Term};
ghost use Rattle.sj_trees.specs.declared.classes.ClassDef.{ClassDef};
ghost use Rattle.sj_trees.specs.declared.classes.MethodDef.{MethodDef};
ghost use Rattle.agree_early_errors.specs.Methods.{HaveTypes};
ghost use Rattle.agree_early_errors.specs.Standing.{call_type};
ghost use Rattle.agree_local_rules.specs.Kept.{KeepsTreeRules};
ghost use Rattle.agree_early_errors.specs.Once.{DefinesOnce, NamesOnce};

/// Each method of a class that breaks none of the local rules keeps those on declarations, definitions, variables, jumps and This.
pub fn classes_keep_tree_rules()
    ensures { (c : ClassDef) → FirstBroken c None → (d : MethodDef) → Contains c.methods d → KeepsTreeRules c d }
{}

/// Each of its methods has the types that its name tells.
pub fn methods_have_the_types_of_their_names()
    ensures { (c : ClassDef) → FirstBroken c None → (d : MethodDef) → Contains c.methods d → HaveTypes d.params d.name.params × (d.result ≡ call_type d.name.result) }
{}

/// A method that keeps the rules on trees defines each local once.
pub fn locals_are_defined_once()
    ensures { (c : ClassDef) (d : MethodDef) (e : Term) → d.body ≡ Some e → KeepsTreeRules c d → DefinesOnce d e }
{}

/// It defines none twice whatever its forms are, and no parameter again.
pub fn names_are_defined_once()
    ensures { (c : ClassDef) (d : MethodDef) (e : Term) → d.body ≡ Some e → KeepsTreeRules c d → NamesOnce d e }
{}
