// Locals and receivers that are never null.
ghost use Rattle.std.specs.Prelude.{◌≡◌, ◌&&◌, not, IfOk, OnOk};
ghost use Rattle.sj_desugar_spec.specs.Plain as plain;
ghost use Rattle.sj_trees.specs.TypeOf.{type_of_term};
ghost use Rattle.sj_trees.specs.View.{view, terms_view, cases_view};
ghost use Rattle.sure_receivers.specs.Sure as receivers;
ghost use Rattle.sj_desugar_facts.specs.Definitions as sures;

use crate::plain::is_among;
use sj_names::{LocalName, NoMemory};
use sj_trees::{IrType, MatchCase, Tree, type_of};
use std::alloc::Global;

// Whether the type is a primitive one other than that of null.
fn is_sure_type(tpe: &IrType) -> bool
    ensures { result ≡ receivers.is_sure_type tpe.now }
{
    match tpe {
        IrType::Undefined
        | IrType::Boolean
        | IrType::Char
        | IrType::Byte
        | IrType::Short
        | IrType::Int
        | IrType::Long
        | IrType::String => true,
        IrType::Any
        | IrType::Nothing
        | IrType::Null
        | IrType::Class(_)
        | IrType::Array(_)
        | IrType::NoType => false,
    }
}

fn has_sure_type(alloc: Global, tree: &Tree) -> Result<bool, NoMemory>
    ensures { IfOk result (λ answer. answer ≡ receivers.is_sure_type (type_of_term (view tree.now))) }
{
    let tpe = type_of(alloc, tree)?;
    Ok(is_sure_type(&tpe))
}

/// Whether the value of a tree is never null, where these locals are never null.
pub fn is_sure(alloc: Global, sure: &[LocalName], tree: &Tree) -> Result<bool, NoMemory>
    ensures { IfOk result (λ answer. answer ≡ receivers.is_sure (plain.is_among sure.now) (view tree.now)) }
{
    match tree {
        Tree::This { .. }
        | Tree::New { .. }
        | Tree::NewArray { .. }
        | Tree::ArrayValue { .. }
        | Tree::LoadModule { .. } => Ok(true),
        Tree::VarRef { name, tpe, .. } => Ok(is_among(sure, name) || is_sure_type(tpe)),
        _ => has_sure_type(alloc, tree),
    }
}

// Whether a local with this right side is never null.
fn is_sure_local(
    alloc: Global,
    sure: &[LocalName],
    mutable: bool,
    value: &Tree,
) -> Result<bool, NoMemory>
    ensures { IfOk result (λ answer. answer ≡ (not mutable && receivers.is_sure (plain.is_among sure.now) (view value.now))) }
{
    if mutable {
        Ok(false)
    } else {
        is_sure(alloc, sure, value)
    }
}

// Adds a local where it is never null.
fn add_local(
    alloc: Global,
    name: &LocalName,
    mutable: bool,
    value: &Tree,
    sure: &mut Vec<LocalName>,
) -> Result<(), NoMemory>
    ensures { OnOk result (sure.new.items ≡ sures.with_local sure.old.items name.now mutable (view value.now)) }
{
    let is_one = is_sure_local(alloc, sure.as_slice(), mutable, value)?;
    if is_one {
        sure.push(name.copied()?)?;
    }
    Ok(())
}

// Adds the locals that a tree defines and that are never null.
#[cycle(sure)]
fn add_sure(alloc: Global, tree: &Tree, sure: &mut Vec<LocalName>) -> Result<(), NoMemory>
    ensures { OnOk result (sure.new.items ≡ sures.sure_in (view tree.now) sure.old.items) }
{
    match tree {
        Tree::VarDef {
            name,
            mutable,
            value,
            ..
        } => {
            add_sure(alloc, value, sure)?;
            add_local(alloc, name, *mutable, value, sure)
        }
        Tree::Block { trees, .. } => add_all_sure(alloc, trees, sure),
        Tree::New {
            arguments: trees,
            ..
        } => add_all_sure(alloc, trees, sure),
        Tree::ApplyStatic {
            arguments: trees,
            ..
        } => add_all_sure(alloc, trees, sure),
        Tree::ArrayValue { items: trees, .. } => add_all_sure(alloc, trees, sure),
        Tree::Labeled { body: value, .. }
        | Tree::Return { value, .. }
        | Tree::Throw { value, .. }
        | Tree::StoreModule { value, .. }
        | Tree::Select { object: value, .. }
        | Tree::UnaryOp { operand: value, .. }
        | Tree::NewArray { length: value, .. }
        | Tree::ArrayLength { array: value, .. }
        | Tree::IsInstanceOf { value, .. }
        | Tree::AsInstanceOf { value, .. }
        | Tree::Log { value, .. } => add_sure(alloc, value, sure),
        Tree::Assign {
            target: first,
            value: second,
            ..
        }
        | Tree::While {
            condition: first,
            body: second,
            ..
        }
        | Tree::DoWhile {
            body: first,
            condition: second,
            ..
        }
        | Tree::TryCatch {
            block: first,
            handler: second,
            ..
        }
        | Tree::TryFinally {
            block: first,
            finalizer: second,
            ..
        }
        | Tree::BinaryOp {
            left: first,
            right: second,
            ..
        }
        | Tree::ArraySelect {
            array: first,
            index: second,
            ..
        } => {
            add_sure(alloc, first, sure)?;
            add_sure(alloc, second, sure)
        }
        Tree::If {
            condition,
            yes,
            no,
            ..
        } => {
            add_sure(alloc, condition, sure)?;
            add_sure(alloc, yes, sure)?;
            add_sure(alloc, no, sure)
        }
        Tree::Match {
            selector,
            cases,
            default,
            ..
        } => {
            add_sure(alloc, selector, sure)?;
            add_sure_of_cases(alloc, cases, sure)?;
            add_sure(alloc, default, sure)
        }
        Tree::Apply {
            receiver,
            arguments: trees,
            ..
        } => {
            add_sure(alloc, receiver, sure)?;
            add_all_sure(alloc, trees, sure)
        }
        Tree::ApplyStatically {
            receiver,
            arguments: trees,
            ..
        } => {
            add_sure(alloc, receiver, sure)?;
            add_all_sure(alloc, trees, sure)
        }
        Tree::Skip { .. }
        | Tree::LoadModule { .. }
        | Tree::SelectStatic { .. }
        | Tree::Undefined { .. }
        | Tree::Null { .. }
        | Tree::BooleanLiteral { .. }
        | Tree::CharLiteral { .. }
        | Tree::ByteLiteral { .. }
        | Tree::ShortLiteral { .. }
        | Tree::IntLiteral { .. }
        | Tree::LongLiteral { .. }
        | Tree::StringLiteral { .. }
        | Tree::VarRef { .. }
        | Tree::This { .. } => Ok(()),
    }
}

#[cycle(sure)]
#[tactic(auto, using(std::proofs::lemmas::Grind::common_steps, crate::proofs::Sures::rows))]
fn add_all_sure(alloc: Global, trees: &[Tree], sure: &mut Vec<LocalName>) -> Result<(), NoMemory>
    ensures { OnOk result (sure.new.items ≡ sures.sure_in_all (terms_view trees.now) sure.old.items) }
{
    for each in trees {
        add_sure(alloc, each, sure)?;
    }
    Ok(())
}

#[cycle(sure)]
#[tactic(auto, using(std::proofs::lemmas::Grind::common_steps, crate::proofs::Sures::rows))]
fn add_sure_of_cases(
    alloc: Global,
    cases: &[MatchCase],
    sure: &mut Vec<LocalName>,
) -> Result<(), NoMemory>
    ensures { OnOk result (sure.new.items ≡ sures.sure_in_cases (cases_view cases.now) sure.old.items) }
{
    for each in cases {
        add_sure(alloc, &each.body, sure)?;
    }
    Ok(())
}

/// The locals of a body that are never null: the immutable ones whose right sides never are.
pub fn sure_locals(alloc: Global, body: &Tree) -> Result<Vec<LocalName>, NoMemory>
    ensures { IfOk result (λ sure. plain.is_among sure.items ≡ receivers.sure_locals (view body.now)) }
{
    let mut sure = Vec::new(alloc);
    add_sure(alloc, body, &mut sure)?;
    Ok(sure)
}
