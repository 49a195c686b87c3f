//! What the check of types and the local rules give for the theorem on bodies: a body that is typed in a world, is of the forms that are built, and
//! of which no tree breaks the local rules, keeps the rules on which the theorem stands.
//!
//! The function here is a law.
#![tactic(auto)]

ghost use Rattle.std.specs.Prelude.{◌≡◌, ℕ, true, List, Some};
ghost use Rattle.sj_text_spec.specs.Rules.{IsListedTree};
ghost use Rattle.agree_local_rules.specs.Kept.{KeepsTreeRules};
ghost use Rattle.agree_local_rules.specs.Locals.{local_of, HasValue};
ghost use Rattle.agree_local_rules.specs.Typing.{may_check, IsResult};
ghost use Rattle.agree_local_rules.specs.Methods.{KeepsRules};
ghost use Rattle.sj_trees.specs.Term.{Term};
ghost use Rattle.sj_trees.specs.declared.classes.ClassDef.{ClassDef};
ghost use Rattle.sj_trees.specs.declared.classes.MethodDef.{MethodDef};
ghost use Rattle.sj_trees.specs.declared.classes.ParamDef.{ParamDef};
ghost use Rattle.agree_local_rules.specs.Built.{Usable, is_built_method};
ghost use Rattle.agree_local_rules.specs.Typed.{IsTyped};
ghost use Rattle.sj_world.specs.Known.{Classes};
ghost use Rattle.sure_receivers.specs.Sure.{sure_locals};

/// A method that keeps the local rules on trees, is typed in a world, is of the forms that are built, and whose body has a listing, keeps the rules over
/// trees in that world, so it is covered by the theorem on programs; where its parameters and its result have types with values that are built.
pub fn typed_bodies_keep_the_rules()
    ensures { (w : Classes) (has : Usable) (c : ClassDef) (d : MethodDef) (e : Term) → d.body ≡ Some e → KeepsTreeRules c d → IsTyped w d → is_built_method has (may_check has (sure_locals e)) d e ≡ true → IsListedTree e → IsResult d.result → ((x : List ℕ) (p : ParamDef) → local_of d.params x ≡ Some p → HasValue p.tpe) → KeepsRules w has c.name d e }
{}
