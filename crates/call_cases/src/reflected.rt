// The kinds of receivers that a reflective call tells apart.
ghost use Rattle.std.specs.Prelude.{◌≡◌, ◌++◌, ◌∷◌, [], map, All, List, IfOk, OnOk, MatchOption};
ghost use Rattle.sj_emit_class_printing.specs.Fits.{FitReflected};
ghost use Rattle.js_tree.specs.Rules.{IsPiece};
ghost use Rattle.js_tree.specs.Views.{piece_view};
ghost use Rattle.sj_emit_help_spec.specs.declared.kinds.Kind.{Kind as AnyKind};
ghost use Rattle.sj_emit_class_spec.specs.Dispatch.{AreReflected, IsReflectedTarget, IsReflectivePiece};
ghost use Rattle.sj_emit_class_parts.specs.Cases.{reflected_view};
ghost use Rattle.sj_names.specs.declared.method_names.MethodName.{MethodName as AnyMethod};
ghost use Rattle.sj_world.specs.Known.{Name};
ghost use Rattle.call_cases.specs.Reached.{HasNoneReached, IsReachedAmong};

use crate::told::{class_name, reached_target};
use js_tree::JsPiece;
use proxy_targets::names_of_targets;
use sj_emit_class_parts::{Reflected, reflective_piece};
use sj_emit_class_printing::{name_fits, pieces_of_classes_are_pieces};
use sj_emit_expr_pieces::method_name_fits;
use sj_emit_help_spec::Kind;
use sj_names::{ClassName, MethodName, NoMemory};
use sj_world::LinkedWorld;
use std::alloc::Global;

/// The function by which a reflective name is called: it has a case for each kind of primitive receivers whose class has a target for the
/// name that is reached. It keeps the rules of printing. Want of memory is the only error.
pub fn reflective_of(
    alloc: Global,
    w: &LinkedWorld,
    proxy: &MethodName,
) -> Result<JsPiece, NoMemory>
    ensures piece { IfOk result (λ p. IsReflectivePiece w.now.world w.now.facts proxy.now (piece_view p)) }
    ensures rules { IfOk result (λ p. IsPiece (piece_view p)) }
{
    let kinds = [
        Kind::Undefined,
        Kind::Boolean,
        Kind::Char,
        Kind::Int,
        Kind::Long,
        Kind::Text,
    ];
    let cases = reflected_among(alloc, w, proxy, &kinds)?;
    method_name_fits(proxy);
    reflected_fit(&cases);
    pieces_of_classes_are_pieces();
    reflective_piece(alloc, proxy, &cases)
}

fn reflected_fit(cases: &[Reflected])
    ensures { All FitReflected (map reflected_view cases.now) }
{
    for reflected in cases {
        one_fits(reflected);
    }
}

fn one_fits(reflected: &Reflected)
    ensures { FitReflected (reflected_view reflected.now) }
{
    name_fits(&reflected.owner);
    method_name_fits(&reflected.method);
}

// Those of the kinds whose class has a reached target.
fn reflected_among(
    alloc: Global,
    w: &LinkedWorld,
    proxy: &MethodName,
    kinds: &[Kind],
) -> Result<Vec<Reflected>, NoMemory>
    ensures { IfOk result (λ cases. AreReflected w.now.world w.now.facts proxy.now kinds.now (map reflected_view cases.items)) }
{
    let mut cases = Vec::new(alloc);
    for kind in kinds {
        put_reflected(alloc, w, proxy, *kind, &mut cases)?;
    }
    Ok(cases)
}

// Puts the kind behind others, if its class has a reached target.
fn put_reflected(
    alloc: Global,
    w: &LinkedWorld,
    proxy: &MethodName,
    kind: Kind,
    cases: &mut Vec<Reflected>,
) -> Result<(), NoMemory>
    ensures { OnOk result ((ks : List AnyKind) → AreReflected w.now.world w.now.facts proxy.now ks (map reflected_view cases.old.items) → AreReflected w.now.world w.now.facts proxy.now (ks ++ kind ∷ []) (map reflected_view cases.new.items)) }
{
    let class = class_name(alloc, kind)?;
    let target = reflected_target(alloc, w, &class, proxy)?;
    match target {
        Some(target) => push_reflected(kind, target, cases),
        None => Ok(()),
    }
}

fn push_reflected(kind: Kind, target: Target, cases: &mut Vec<Reflected>) -> Result<(), NoMemory>
    ensures { OnOk result (map reflected_view cases.new.items ≡ map reflected_view cases.old.items ++ record { kind = kind; owner = target.owner; method = target.method } ∷ []) }
{
    cases.push(Reflected {
        kind,
        owner: target.owner,
        method: target.method,
    })?;
    Ok(())
}

/// What a call runs: the class of the body, and the name of the method.
#[derive(Drop)]
pub struct Target {
    pub owner: ClassName,
    pub method: MethodName,
}

// What a reflective call on a value of the class runs, where it is reached.
fn reflected_target(
    alloc: Global,
    w: &LinkedWorld,
    class: &ClassName,
    proxy: &MethodName,
) -> Result<Option<Target>, NoMemory>
    ensures { IfOk result (λ target. MatchOption target ((t : AnyMethod) (owner : Name) → IsReflectedTarget w.now.world w.now.facts class.now proxy.now t owner → ⊥) (λ found. IsReflectedTarget w.now.world w.now.facts class.now proxy.now found.method found.owner)) }
{
    let names = names_of_targets(alloc, w.world(), class, proxy)?;
    first_reached(w, class, &names)
}

// The first of the methods that has a reached target on a value of the class.
fn first_reached(
    w: &LinkedWorld,
    class: &ClassName,
    names: &[MethodName],
) -> Result<Option<Target>, NoMemory>
    ensures { IfOk result (λ target. MatchOption target (HasNoneReached w.now.world w.now.facts class.now names.now) (λ found. IsReachedAmong w.now.world w.now.facts class.now names.now found.method found.owner)) }
{
    for name in names {
        let target = reached_target(w, class, name)?;
        if let Some(owner) = target {
            let method = name.copied()?;
            return Ok(Some(Target { owner, method }));
        }
    }
    Ok(None)
}
