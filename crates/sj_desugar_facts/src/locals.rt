// The mutable locals of a method.
ghost use Rattle.std.specs.Prelude.{◌≡◌, [], IfOk, OnOk, reverse};
ghost use Rattle.sj_desugar_spec.specs.Plain as plain;
ghost use Rattle.sj_trees.specs.View.{view, terms_view, cases_view};

use sj_names::{LocalName, NoMemory};
use sj_trees::{MatchCase, ParamDef, Tree};
use std::alloc::Global;

// Adds a name where it is that of a mutable local.
#[tactic(auto, using(std::proofs::lemmas::Grind::common_steps, crate::proofs::Names::reversing))]
fn add_if(mutable: bool, name: &LocalName, names: &mut Vec<LocalName>) -> Result<(), NoMemory>
    ensures { OnOk result (reverse names.new.items ≡ plain.if_mutable mutable name.now (reverse names.old.items)) }
{
    if mutable {
        names.push(name.copied()?)?;
    }
    Ok(())
}

// Adds the mutable locals that a tree defines, the last first.
#[cycle(locals)]
fn add_mutable(tree: &Tree, names: &mut Vec<LocalName>) -> Result<(), NoMemory>
    ensures { OnOk result (reverse names.new.items ≡ plain.mutable_in (view tree.now) (reverse names.old.items)) }
{
    match tree {
        Tree::VarDef {
            name,
            mutable,
            value,
            ..
        } => {
            add_mutable(value, names)?;
            add_if(*mutable, name, names)
        }
        Tree::Block { trees, .. } => add_all_mutable(trees, names),
        Tree::New {
            arguments: trees,
            ..
        } => add_all_mutable(trees, names),
        Tree::ApplyStatic {
            arguments: trees,
            ..
        } => add_all_mutable(trees, names),
        Tree::ArrayValue { items: trees, .. } => add_all_mutable(trees, names),
        Tree::Labeled { body: value, .. }
        | Tree::Return { value, .. }
        | Tree::Throw { value, .. }
        | Tree::StoreModule { value, .. }
        | Tree::Select { object: value, .. }
        | Tree::UnaryOp { operand: value, .. }
        | Tree::NewArray { length: value, .. }
        | Tree::ArrayLength { array: value, .. }
        | Tree::IsInstanceOf { value, .. }
        | Tree::AsInstanceOf { value, .. }
        | Tree::Log { value, .. } => add_mutable(value, names),
        Tree::Assign {
            target: first,
            value: second,
            ..
        }
        | Tree::While {
            condition: first,
            body: second,
            ..
        }
        | Tree::DoWhile {
            body: first,
            condition: second,
            ..
        }
        | Tree::TryCatch {
            block: first,
            handler: second,
            ..
        }
        | Tree::TryFinally {
            block: first,
            finalizer: second,
            ..
        }
        | Tree::BinaryOp {
            left: first,
            right: second,
            ..
        }
        | Tree::ArraySelect {
            array: first,
            index: second,
            ..
        } => {
            add_mutable(second, names)?;
            add_mutable(first, names)
        }
        Tree::If {
            condition,
            yes,
            no,
            ..
        } => {
            add_mutable(no, names)?;
            add_mutable(yes, names)?;
            add_mutable(condition, names)
        }
        Tree::Match {
            selector,
            cases,
            default,
            ..
        } => {
            add_mutable(default, names)?;
            add_mutable_of_cases(cases, names)?;
            add_mutable(selector, names)
        }
        Tree::Apply {
            receiver,
            arguments: trees,
            ..
        } => {
            add_all_mutable(trees, names)?;
            add_mutable(receiver, names)
        }
        Tree::ApplyStatically {
            receiver,
            arguments: trees,
            ..
        } => {
            add_all_mutable(trees, names)?;
            add_mutable(receiver, names)
        }
        Tree::Skip { .. }
        | Tree::LoadModule { .. }
        | Tree::SelectStatic { .. }
        | Tree::Undefined { .. }
        | Tree::Null { .. }
        | Tree::BooleanLiteral { .. }
        | Tree::CharLiteral { .. }
        | Tree::ByteLiteral { .. }
        | Tree::ShortLiteral { .. }
        | Tree::IntLiteral { .. }
        | Tree::LongLiteral { .. }
        | Tree::StringLiteral { .. }
        | Tree::VarRef { .. }
        | Tree::This { .. } => Ok(()),
    }
}

#[cycle(locals)]
#[tactic(auto, using(std::proofs::lemmas::Grind::common_steps, crate::proofs::Names::rows))]
fn add_all_mutable(trees: &[Tree], names: &mut Vec<LocalName>) -> Result<(), NoMemory>
    ensures { OnOk result (reverse names.new.items ≡ plain.mutable_in_all (terms_view trees.now) (reverse names.old.items)) }
{
    let mut left = trees.len();
    while left > 0 {
        left -= 1;
        add_mutable(&trees[left], names)?;
    }
    Ok(())
}

#[cycle(locals)]
#[tactic(auto, using(std::proofs::lemmas::Grind::common_steps, crate::proofs::Names::rows))]
fn add_mutable_of_cases(cases: &[MatchCase], names: &mut Vec<LocalName>) -> Result<(), NoMemory>
    ensures { OnOk result (reverse names.new.items ≡ plain.mutable_in_cases (cases_view cases.now) (reverse names.old.items)) }
{
    let mut left = cases.len();
    while left > 0 {
        left -= 1;
        add_mutable(&cases[left].body, names)?;
    }
    Ok(())
}

#[tactic(auto, using(std::proofs::lemmas::Grind::common_steps, crate::proofs::Names::rows))]
fn add_mutable_params(params: &[ParamDef], names: &mut Vec<LocalName>) -> Result<(), NoMemory>
    ensures { OnOk result (reverse names.new.items ≡ plain.mutable_params params.now (reverse names.old.items)) }
{
    let mut left = params.len();
    while left > 0 {
        left -= 1;
        add_if(params[left].mutable, &params[left].name, names)?;
    }
    Ok(())
}

/// The mutable locals of a method with these parameters and this body.
pub fn mutable_locals(
    alloc: Global,
    params: &[ParamDef],
    body: &Tree,
) -> Result<Vec<LocalName>, NoMemory>
    ensures { IfOk result (λ names. names.items ≡ plain.mutable_params params.now (plain.mutable_in (view body.now) [])) }
{
    let mut names = Vec::new(alloc);
    add_mutable(body, &mut names)?;
    add_mutable_params(params, &mut names)?;
    names.reverse();
    Ok(names)
}
