//! The agreement of the two meanings for trees without statements in them: what such a tree comes to by the IR, the expression that is emitted for
//! it comes to by ECMA-262.
//!
//! `specs/` has what bodies are compared in: worlds, places and settings, and what is asked of a plain tree. The function here is a law: it
//! does nothing when it runs, and its clause is a theorem.
#![tactic(auto)]

ghost use Rattle.std.specs.Prelude.{◌≡◌, ℕ, Bool, true, List};
ghost use Rattle.outcomes.specs.Agreement.{Sim};
ghost use Rattle.ir_mean.specs.Meaning as ir_meaning;
ghost use Rattle.ir_mean.specs.States as ir;
ghost use Rattle.js_mean.specs.States as js;
ghost use Rattle.agree_body_rules.specs.Desugar.{expression_of};
ghost use Rattle.sj_trees.specs.Term.{Term};
ghost use Rattle.sj_trees.specs.TypeOf.{type_of_term};
ghost use Rattle.sj_trees.specs.declared.types.IrType.{IrType};
ghost use Rattle.agree_plain_trees.specs.Conditions.{Plain};
ghost use Rattle.agree_plain_trees.specs.Settings.{Setting, Lawful, Sees, SameState, Valued, shown, usable};
ghost use Rattle.agree_plain_trees.specs.Worlds.{World};

/// The theorem on plain trees, in both directions: let a tree be plain and keep the rules of bodies, with its locals in scope and its calls
/// to members whose bodies are alike; then the tree and its expression are alike where the locals and the states stand for each other.
/// That is, where both are done they have shown the same lines, and the values and states that they come to stand for each other; where a
/// side is going, what it has shown begins what the other shows. A tree that is wrong promises nothing.
pub fn plain_trees_agree()
    ensures { (z : Setting) → Lawful z → (scope : List ℕ → IrType → Bool) (t : Term) → Plain z.place.typing (usable z) z.code (λ x i. scope x i ≡ true) t → (w : World) (env : ir.Env) (s : ir.State) (sc : js.Scope) (u : js.State) → Sees z.place z.code (λ x i. scope x i ≡ true) w env sc → SameState z.place w s u → Sim z.direction (Valued z.place w env (type_of_term t)) (ir_meaning.step z.place.classes z.low t env s) (shown z (expression_of z.code.sure t) sc u) }
{}
