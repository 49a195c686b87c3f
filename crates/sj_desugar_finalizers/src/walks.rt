// The tries with finalizers and the jumps of a tree.
ghost use Rattle.std.specs.Prelude.{◌≡◌, [], ◌∷◌, ◌++◌, map, IfOk, OnOk};
ghost use Rattle.sj_desugar_spec.specs.Finalizers as specs;
ghost use Rattle.sj_desugar_spec.specs.Plain as plain;
ghost use Rattle.sj_desugar_finalizers.specs.Shapes.{seen_jump, jump_of, left_in_parts};
ghost use Rattle.sj_trees.specs.View.{view, terms_view, cases_view};
ghost use Rattle.tree_parts.specs.Parts.{parts_of};

use sj_names::{LabelName, NoMemory};
use sj_trees::{MatchCase, Tree};
use std::alloc::Global;
use tree_parts::{Parts, parts_in};

/// Whether a tree is a try with a finalizer, or holds one.
#[cycle(holding)]
pub fn holds_finally(tree: &Tree) -> bool
    ensures { result ≡ specs.holds_finally (view tree.now) }
{
    match tree {
        Tree::TryFinally { .. } => true,
        Tree::VarDef { value, .. }
        | Tree::Labeled { body: value, .. }
        | Tree::Return { value, .. }
        | Tree::Throw { value, .. }
        | Tree::StoreModule { value, .. }
        | Tree::Select { object: value, .. }
        | Tree::UnaryOp { operand: value, .. }
        | Tree::NewArray { length: value, .. }
        | Tree::ArrayLength { array: value, .. }
        | Tree::IsInstanceOf { value, .. }
        | Tree::AsInstanceOf { value, .. }
        | Tree::Log { value, .. } => holds_finally(value),
        Tree::Block { trees, .. }
        | Tree::New {
            arguments: trees,
            ..
        }
        | Tree::ApplyStatic {
            arguments: trees,
            ..
        }
        | Tree::ArrayValue { items: trees, .. } => hold_finally(trees),
        Tree::Assign {
            target: first,
            value: second,
            ..
        }
        | Tree::While {
            condition: first,
            body: second,
            ..
        }
        | Tree::DoWhile {
            body: first,
            condition: second,
            ..
        }
        | Tree::TryCatch {
            block: first,
            handler: second,
            ..
        }
        | Tree::BinaryOp {
            left: first,
            right: second,
            ..
        }
        | Tree::ArraySelect {
            array: first,
            index: second,
            ..
        } => holds_finally(first) || holds_finally(second),
        Tree::If {
            condition,
            yes,
            no,
            ..
        } => { holds_finally(condition) || holds_finally(yes) || holds_finally(no) }
        Tree::Match {
            selector,
            cases,
            default,
            ..
        } => { holds_finally(selector) || cases_hold_finally(cases) || holds_finally(default) }
        Tree::Apply {
            receiver,
            arguments: trees,
            ..
        } => holds_finally(receiver) || hold_finally(trees),
        Tree::ApplyStatically {
            receiver,
            arguments: trees,
            ..
        } => { holds_finally(receiver) || hold_finally(trees) }
        Tree::Skip { .. }
        | Tree::LoadModule { .. }
        | Tree::SelectStatic { .. }
        | Tree::Undefined { .. }
        | Tree::Null { .. }
        | Tree::BooleanLiteral { .. }
        | Tree::CharLiteral { .. }
        | Tree::ByteLiteral { .. }
        | Tree::ShortLiteral { .. }
        | Tree::IntLiteral { .. }
        | Tree::LongLiteral { .. }
        | Tree::StringLiteral { .. }
        | Tree::VarRef { .. }
        | Tree::This { .. } => false,
    }
}

#[cycle(holding)]
fn hold_finally(trees: &[Tree]) -> bool
    ensures { result ≡ specs.hold_finally (terms_view trees.now) }
{
    for each in trees {
        if holds_finally(each) {
            return true;
        }
    }
    false
}

#[cycle(holding)]
fn cases_hold_finally(cases: &[MatchCase]) -> bool
    ensures { result ≡ specs.cases_hold_finally (cases_view cases.now) }
{
    for each in cases {
        if holds_finally(&each.body) {
            return true;
        }
    }
    false
}

fn is_among(labels: &[&LabelName], label: &LabelName) -> bool
    ensures { result ≡ plain.is_among (map (λ l. l.now) labels.now) label.now }
{
    for each in labels {
        if label.is_same(each) {
            return true;
        }
    }
    false
}

// A label in front of those inside of which a tree stands.
fn with_inner<'t>(
    alloc: Global,
    label: &'t LabelName,
    inner: &[&'t LabelName],
) -> Result<Vec<&'t LabelName>, NoMemory>
    ensures { IfOk result (λ ls. map (λ l. l.now) ls.items ≡ label.now ∷ map (λ l. l.now) inner.now) }
{
    let mut labels = Vec::new(alloc);
    labels.push(label)?;
    for each in inner {
        labels.push(*each)?;
    }
    Ok(labels)
}

/// The labels outside of a tree to which it jumps. Want of memory is the only error.
pub fn labels_left(alloc: Global, tree: &Tree) -> Result<Vec<&LabelName>, NoMemory>
    ensures { IfOk result (λ found. map (λ l. l.now) found.items ≡ specs.left_labels [] (view tree.now)) }
{
    let inner = Vec::new(alloc);
    let mut found = Vec::new(alloc);
    add(alloc, &inner, &mut found, tree)?;
    Ok(found)
}

/// What a tree says of labels.
#[derive(Clone, Copy)]
enum Jump<'t> {
    /// It leaves to the label.
    To(&'t LabelName),
    /// The label is around what is in it.
    Around(&'t LabelName),
    None,
}

fn jump_in(tree: &Tree) -> Jump<'_>
    ensures { seen_jump result ≡ jump_of (view tree.now) }
{
    match tree {
        Tree::Return { label, .. } => Jump::To(label),
        Tree::Labeled { label, .. } => Jump::Around(label),
        _ => Jump::None,
    }
}

// Adds the labels to which a tree jumps, but for those inside of which it stands.
#[cycle(leaving)]
#[tactic(auto, using(std::proofs::lemmas::Grind::common_steps, crate::proofs::Shapes::left_shape))]
fn add<'t>(
    alloc: Global,
    inner: &[&'t LabelName],
    found: &mut Vec<&'t LabelName>,
    tree: &'t Tree,
) -> Result<(), NoMemory>
    ensures { OnOk result (map (λ l. l.now) found.new.items ≡ map (λ l. l.now) found.old.items ++ specs.left_labels (map (λ l. l.now) inner.now) (view tree.now)) }
{
    match jump_in(tree) {
        Jump::To(label) => {
            if !is_among(inner, label) {
                found.push(label)?;
            }
            add_parts(alloc, inner, found, tree)
        }
        Jump::Around(label) => {
            let deeper = with_inner(alloc, label, inner)?;
            add_parts(alloc, &deeper, found, tree)
        }
        Jump::None => add_parts(alloc, inner, found, tree),
    }
}

// Adds the labels to which the trees in a tree jump.
#[cycle(leaving)]
fn add_parts<'t>(
    alloc: Global,
    inner: &[&'t LabelName],
    found: &mut Vec<&'t LabelName>,
    tree: &'t Tree,
) -> Result<(), NoMemory>
    ensures { OnOk result (map (λ l. l.now) found.new.items ≡ map (λ l. l.now) found.old.items ++ left_in_parts (map (λ l. l.now) inner.now) (parts_of (view tree.now))) }
{
    match parts_in(tree) {
        Parts::None => Ok(()),
        Parts::One(one) => add(alloc, inner, found, one),
        Parts::Two(one, two) => {
            add(alloc, inner, found, one)?;
            add(alloc, inner, found, two)
        }
        Parts::Three(one, two, three) => {
            add(alloc, inner, found, one)?;
            add(alloc, inner, found, two)?;
            add(alloc, inner, found, three)
        }
        Parts::Many(trees) => add_all(alloc, inner, found, trees),
        Parts::OneAndMany(one, trees) => {
            add(alloc, inner, found, one)?;
            add_all(alloc, inner, found, trees)
        }
        Parts::Cases(one, cases, two) => {
            add(alloc, inner, found, one)?;
            add_cases(alloc, inner, found, cases)?;
            add(alloc, inner, found, two)
        }
    }
}

#[cycle(leaving)]
fn add_all<'t>(
    alloc: Global,
    inner: &[&'t LabelName],
    found: &mut Vec<&'t LabelName>,
    trees: &'t [Tree],
) -> Result<(), NoMemory>
    ensures { OnOk result (map (λ l. l.now) found.new.items ≡ map (λ l. l.now) found.old.items ++ specs.all_left_labels (map (λ l. l.now) inner.now) (terms_view trees.now)) }
{
    for each in trees {
        add(alloc, inner, found, each)?;
    }
    Ok(())
}

#[cycle(leaving)]
fn add_cases<'t>(
    alloc: Global,
    inner: &[&'t LabelName],
    found: &mut Vec<&'t LabelName>,
    cases: &'t [MatchCase],
) -> Result<(), NoMemory>
    ensures { OnOk result (map (λ l. l.now) found.new.items ≡ map (λ l. l.now) found.old.items ++ specs.cases_left_labels (map (λ l. l.now) inner.now) (cases_view cases.now)) }
{
    for each in cases {
        add(alloc, inner, found, &each.body)?;
    }
    Ok(())
}
