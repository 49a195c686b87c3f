// The kinds of receivers that a call tells apart.
ghost use Rattle.std.specs.Prelude.{◌≡◌, ◌++◌, ◌∷◌, [], map, All, List, IfOk, OnOk, MatchOption, Contains};
ghost use Rattle.sj_world.specs.declared.facts.Fact.TheVariants.{Body};
ghost use Rattle.sj_emit_class_printing.specs.Fits.{FitTold};
ghost use Rattle.js_tree.specs.Rules.{IsPiece};
ghost use Rattle.js_tree.specs.Views.{piece_view};
ghost use Rattle.sj_emit_help_spec.specs.Words.{kind_class};
ghost use Rattle.sj_emit_help_spec.specs.declared.kinds.Kind.{Kind as AnyKind};
ghost use Rattle.sj_emit_class_spec.specs.Dispatch.{AreTold, IsReachedTarget, IsDispatchPiece};
ghost use Rattle.sj_reach_spec.specs.Rules as rules;
ghost use Rattle.sj_emit_class_parts.specs.Cases.{told_view};
ghost use Rattle.sj_world.specs.Known.{Name};

use js_tree::JsPiece;
use piece_making::class_of_kind;
use sj_emit_class_parts::{Told, dispatch_piece};
use sj_emit_class_printing::{name_fits, pieces_of_classes_are_pieces};
use sj_emit_expr_pieces::method_name_fits;
use sj_emit_help_spec::Kind;
use sj_names::{ClassName, Member, MethodName, Namespace, NoMemory, Text};
use sj_world::{LinkedWorld, Resolution};
use std::alloc::Global;

/// The function by which a public method is called on receivers that may be primitive: it has a case for each kind of them whose class has
/// a target for the method that is reached. It keeps the rules of printing. Want of memory is the only error.
pub fn dispatch_of(alloc: Global, w: &LinkedWorld, method: &MethodName) -> Result<JsPiece, NoMemory>
    ensures piece { IfOk result (λ p. IsDispatchPiece w.now.world w.now.facts method.now (piece_view p)) }
    ensures rules { IfOk result (λ p. IsPiece (piece_view p)) }
{
    let kinds = [
        Kind::Undefined,
        Kind::Boolean,
        Kind::Char,
        Kind::Int,
        Kind::Long,
        Kind::Text,
    ];
    let cases = told_among(alloc, w, method, &kinds)?;
    method_name_fits(method);
    told_fit(&cases);
    pieces_of_classes_are_pieces();
    dispatch_piece(alloc, method, &cases)
}

fn told_fit(cases: &[Told])
    ensures { All FitTold (map told_view cases.now) }
{
    for told in cases {
        name_fits(&told.owner);
    }
}

// Those of the kinds whose class has a reached target.
fn told_among(
    alloc: Global,
    w: &LinkedWorld,
    method: &MethodName,
    kinds: &[Kind],
) -> Result<Vec<Told>, NoMemory>
    ensures { IfOk result (λ cases. AreTold w.now.world w.now.facts method.now kinds.now (map told_view cases.items)) }
{
    let mut cases = Vec::new(alloc);
    for kind in kinds {
        put_told(alloc, w, method, *kind, &mut cases)?;
    }
    Ok(cases)
}

// Puts the kind behind others, if its class has a reached target.
fn put_told(
    alloc: Global,
    w: &LinkedWorld,
    method: &MethodName,
    kind: Kind,
    cases: &mut Vec<Told>,
) -> Result<(), NoMemory>
    ensures { OnOk result ((ks : List AnyKind) → AreTold w.now.world w.now.facts method.now ks (map told_view cases.old.items) → AreTold w.now.world w.now.facts method.now (ks ++ kind ∷ []) (map told_view cases.new.items)) }
{
    let class = class_name(alloc, kind)?;
    let target = reached_target(w, &class, method)?;
    match target {
        Some(owner) => push_told(kind, owner, cases),
        None => Ok(()),
    }
}

fn push_told(kind: Kind, owner: ClassName, cases: &mut Vec<Told>) -> Result<(), NoMemory>
    ensures { OnOk result (map told_view cases.new.items ≡ map told_view cases.old.items ++ record { kind = kind; owner = owner } ∷ []) }
{
    cases.push(Told { kind, owner })?;
    Ok(())
}

/// The name of the class of a kind.
pub fn class_name(alloc: Global, kind: Kind) -> Result<ClassName, NoMemory>
    ensures { IfOk result (λ c. c ≡ kind_class kind) }
{
    let text = Text::from_str(alloc, class_of_kind(kind))?;
    Ok(ClassName::of_text(text))
}

/// The class whose body a call of the method on a value of the class runs, where it is reached.
pub fn reached_target(
    w: &LinkedWorld,
    class: &ClassName,
    method: &MethodName,
) -> Result<Option<ClassName>, NoMemory>
    ensures { IfOk result (λ target. MatchOption target ((owner : Name) → IsReachedTarget w.now.world w.now.facts class.now method.now owner → ⊥) (λ owner. IsReachedTarget w.now.world w.now.facts class.now method.now owner)) }
{
    match w.world().resolve(class, method) {
        Resolution::Target(_, owner) => if_reached(w, owner, method),
        Resolution::Abstract => Ok(None),
        Resolution::Missing => Ok(None),
    }
}

// The class, where the body of its public method of this name is needed.
fn if_reached(
    w: &LinkedWorld,
    owner: &ClassName,
    method: &MethodName,
) -> Result<Option<ClassName>, NoMemory>
    ensures { IfOk result (λ target. MatchOption target (Contains w.now.facts (Body (rules.public_member owner.now method.now)) → ⊥) (λ found. (found ≡ owner.now) × Contains w.now.facts (Body (rules.public_member owner.now method.now)))) }
{
    let member = public_member(owner, method)?;
    if w.has_body(&member) {
        Ok(Some(owner.copied()?))
    } else {
        Ok(None)
    }
}

fn public_member(class: &ClassName, method: &MethodName) -> Result<Member, NoMemory>
    ensures { IfOk result (λ k. k ≡ rules.public_member class.now method.now) }
{
    let class = class.copied()?;
    let method = method.copied()?;
    Ok(Member {
        class,
        namespace: Namespace::Public,
        method,
    })
}
