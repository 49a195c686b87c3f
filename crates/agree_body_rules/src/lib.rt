//! The rules that a body keeps, in one statement: each tree meets the rule of its form, is of the forms that are built, and finds what it uses around it.
//!
//! `specs/` has the rules, the locals that they speak of, and which types stand where another is expected. It knows no meaning. The function here is a
//! law: it does nothing when it runs, and its clause is a theorem.
#![tactic(auto)]

ghost use Rattle.agree_body_rules.specs.Subtyping.{IsSubtyping};
ghost use Rattle.sj_emit_expr_spec.specs.Known.{Classes};
ghost use Rattle.sj_emit_expr_spec.specs.Laws.{IsPlain};
ghost use Rattle.sj_emit_expr_spec.specs.Subtypes.{IsSub};

/// Subtyping in a world where no class writes a hijacked class or stands above `java.lang.Object` has the properties that are asked of subtyping.
pub fn subtypes_of_worlds_are_ordered()
    ensures { (w : Classes) → IsPlain w → IsSubtyping (IsSub w) }
{}
