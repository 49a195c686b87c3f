// A walk over the trees of a body, with what is known where each stands.
ghost use Rattle.std.specs.Prelude.{◌≡◌, ◌++◌, ◌∷◌, [], map, true, false, IfOk, OnOk};
ghost use Rattle.sj_trees.specs.View.{view, terms_view, cases_view};
ghost use Rattle.sj_trees.specs.declared.classes.ParamDef.{ParamDef};
ghost use Rattle.sj_local.specs.Nodes as nodes;
ghost use Rattle.sj_local.specs.TreeRules as rules;
ghost use Rattle.sj_local.specs.WalkParts as walks;

use crate::findings::{Findings, Judgement};
use crate::trees::{
    breaks_definition, breaks_keys, breaks_return, breaks_store, breaks_target, breaks_this,
    breaks_variable,
};
use sj_names::{LabelName, LocalName, Namespace, NoMemory};
use sj_trees::{ClassDef, IrType, MatchCase, MethodDef, ParamDef, Tree};
use std::alloc::Global;

/// A variable in scope.
#[derive(Drop)]
pub struct Local {
    pub name: LocalName,
    pub tpe: IrType,
    pub mutable: bool,
}

/// What a method may declare once.
#[derive(Drop, PartialEq, Eq, Hash)]
pub enum Declaration {
    Local(LocalName),
    Label(LabelName),
}

/// A declaration and the number of its tree.
#[derive(Drop)]
pub struct Declared {
    pub declaration: Declaration,
    pub tree: u32,
}

/// A walk: the locals in scope and the labels around, the innermost last; how many trees were seen, what they declare and what was
/// found of the rules.
#[derive(Drop)]
pub struct Walk {
    pub scope: Vec<Local>,
    pub labels: Vec<LabelName>,
    pub count: u32,
    pub declared: Vec<Declared>,
    pub findings: Findings,
}

/// The class and the namespace of the method whose body is walked over.
#[derive(Drop)]
pub struct Method<'c> {
    pub class: &'c ClassDef,
    pub namespace: Namespace,
}

fn judgement(
    alloc: Global,
    method: &Method<'_>,
    walk: &Walk,
    tree: &Tree,
    in_block: bool,
) -> Result<Judgement, NoMemory>
    ensures { IfOk result (λ j. j ≡ walks.judgement method.now.class.now method.now.namespace (nodes.node (walks.context walk.now in_block) (view tree.now))) }
{
    let this = breaks_this(tree, method.class, method.namespace)?;
    let keys = breaks_keys(alloc, tree)?;
    Ok(Judgement {
        definition: breaks_definition(tree, in_block),
        variable: breaks_variable(tree, walk.scope.as_slice()),
        return_label: breaks_return(tree, walk.labels.as_slice()),
        this,
        store_module: breaks_store(tree, method.class, method.namespace),
        target: breaks_target(tree),
        keys,
    })
}

// Adds what the tree declares.
fn declare(walk: &mut Walk, tree: &Tree) -> Result<(), NoMemory>
    ensures declared { OnOk result (walk.new.declared.items ≡ walk.old.declared.items ++ rules.declared_by walk.old.count (view tree.now)) }
    ensures count { walk.new.count ≡ walk.old.count }
    ensures findings { walk.new.findings ≡ walk.old.findings }
    ensures scope { walk.new.scope.items ≡ walk.old.scope.items }
    ensures labels { walk.new.labels.items ≡ walk.old.labels.items }
{
    let declaration = match tree {
        Tree::VarDef { name, .. } | Tree::TryCatch { name, .. } => {
            Declaration::Local(name.copied()?)
        }
        Tree::Labeled { label, .. } => Declaration::Label(label.copied()?),
        _ => return Ok(()),
    };
    let tree = walk.count;
    walk.declared.push(Declared { declaration, tree })?;
    Ok(())
}

// Sees one tree, and not those in it.
#[tactic(auto, unfolding(crate::specs::WalkParts::with_node))]
fn see(
    alloc: Global,
    method: &Method<'_>,
    walk: &mut Walk,
    tree: &Tree,
    in_block: bool,
) -> Result<(), NoMemory>
    ensures trace { OnOk result (walks.trace walk.new ≡ walks.with_node method.now.class.now method.now.namespace (nodes.node (walks.context walk.old in_block) (view tree.now)) (walks.trace walk.old)) }
    ensures scope { OnOk result (walk.new.scope.items ≡ walk.old.scope.items) }
    ensures labels { OnOk result (walk.new.labels.items ≡ walk.old.labels.items) }
{
    let judgement = judgement(alloc, method, walk, tree, in_block)?;
    declare(walk, tree)?;
    walk.findings = walk.findings.with(walk.count, &judgement);
    walk.count = walk.count.saturating_add(1);
    Ok(())
}

// Walks over a tree.
#[cycle(walk)]
fn visit(
    alloc: Global,
    method: &Method<'_>,
    walk: &mut Walk,
    tree: &Tree,
    in_block: bool,
) -> Result<(), NoMemory>
    ensures trace { OnOk result (walks.trace walk.new ≡ walks.after method.now.class.now method.now.namespace (walks.context walk.old in_block) (view tree.now) (walks.trace walk.old)) }
    ensures scope { OnOk result (walk.new.scope.items ≡ walk.old.scope.items) }
    ensures labels { OnOk result (walk.new.labels.items ≡ walk.old.labels.items) }
{
    see(alloc, method, walk, tree, in_block)?;
    match tree {
        Tree::VarDef { value: one, .. }
        | Tree::Return { value: one, .. }
        | Tree::Throw { value: one, .. }
        | Tree::StoreModule { value: one, .. }
        | Tree::Select { object: one, .. }
        | Tree::UnaryOp { operand: one, .. }
        | Tree::NewArray { length: one, .. }
        | Tree::ArrayLength { array: one, .. }
        | Tree::IsInstanceOf { value: one, .. }
        | Tree::AsInstanceOf { value: one, .. }
        | Tree::Log { value: one, .. } => visit(alloc, method, walk, one, false),
        Tree::Assign {
            target: one,
            value: two,
            ..
        }
        | Tree::While {
            condition: one,
            body: two,
            ..
        }
        | Tree::DoWhile {
            body: one,
            condition: two,
            ..
        }
        | Tree::TryFinally {
            block: one,
            finalizer: two,
            ..
        }
        | Tree::BinaryOp {
            left: one,
            right: two,
            ..
        }
        | Tree::ArraySelect {
            array: one,
            index: two,
            ..
        } => {
            visit(alloc, method, walk, one, false)?;
            visit(alloc, method, walk, two, false)
        }
        Tree::If {
            condition,
            yes,
            no,
            ..
        } => {
            visit(alloc, method, walk, condition, false)?;
            visit(alloc, method, walk, yes, false)?;
            visit(alloc, method, walk, no, false)
        }
        Tree::Block { trees, .. } => visit_block(alloc, method, walk, trees),
        Tree::Labeled { label, body, .. } => visit_labeled(alloc, method, walk, label, body),
        Tree::TryCatch {
            block,
            name,
            handler,
            ..
        } => {
            visit(alloc, method, walk, block, false)?;
            visit_handler(alloc, method, walk, name, handler)
        }
        Tree::Match {
            selector,
            cases,
            default,
            ..
        } => {
            visit(alloc, method, walk, selector, false)?;
            visit_cases(alloc, method, walk, cases)?;
            visit(alloc, method, walk, default, false)
        }
        Tree::New {
            arguments: trees,
            ..
        }
        | Tree::ApplyStatic {
            arguments: trees,
            ..
        }
        | Tree::ArrayValue { items: trees, .. } => visit_all(alloc, method, walk, trees),
        Tree::Apply {
            receiver,
            arguments: trees,
            ..
        } => {
            visit(alloc, method, walk, receiver, false)?;
            visit_all(alloc, method, walk, trees)
        }
        Tree::ApplyStatically {
            receiver,
            arguments: trees,
            ..
        } => {
            visit(alloc, method, walk, receiver, false)?;
            visit_all(alloc, method, walk, trees)
        }
        Tree::Skip { .. }
        | Tree::LoadModule { .. }
        | Tree::SelectStatic { .. }
        | Tree::Undefined { .. }
        | Tree::Null { .. }
        | Tree::BooleanLiteral { .. }
        | Tree::CharLiteral { .. }
        | Tree::ByteLiteral { .. }
        | Tree::ShortLiteral { .. }
        | Tree::IntLiteral { .. }
        | Tree::LongLiteral { .. }
        | Tree::StringLiteral { .. }
        | Tree::VarRef { .. }
        | Tree::This { .. } => Ok(()),
    }
}

#[cycle(walk)]
fn visit_all(
    alloc: Global,
    method: &Method<'_>,
    walk: &mut Walk,
    trees: &[Tree],
) -> Result<(), NoMemory>
    ensures trace { OnOk result (walks.trace walk.new ≡ walks.after_all method.now.class.now method.now.namespace (walks.context walk.old false) (terms_view trees.now) (walks.trace walk.old)) }
    ensures scope { OnOk result (walk.new.scope.items ≡ walk.old.scope.items) }
    ensures labels { OnOk result (walk.new.labels.items ≡ walk.old.labels.items) }
{
    for tree in trees {
        visit(alloc, method, walk, tree, false)?;
    }
    Ok(())
}

#[cycle(walk)]
fn visit_cases(
    alloc: Global,
    method: &Method<'_>,
    walk: &mut Walk,
    cases: &[MatchCase],
) -> Result<(), NoMemory>
    ensures trace { OnOk result (walks.trace walk.new ≡ walks.after_cases method.now.class.now method.now.namespace (walks.context walk.old false) (cases_view cases.now) (walks.trace walk.old)) }
    ensures scope { OnOk result (walk.new.scope.items ≡ walk.old.scope.items) }
    ensures labels { OnOk result (walk.new.labels.items ≡ walk.old.labels.items) }
{
    for case in cases {
        visit(alloc, method, walk, &case.body, false)?;
    }
    Ok(())
}

#[cycle(walk)]
fn visit_labeled(
    alloc: Global,
    method: &Method<'_>,
    walk: &mut Walk,
    label: &LabelName,
    body: &Tree,
) -> Result<(), NoMemory>
    ensures trace { OnOk result (walks.trace walk.new ≡ walks.after method.now.class.now method.now.namespace (nodes.with_label label.now (walks.context walk.old false)) (view body.now) (walks.trace walk.old)) }
    ensures scope { OnOk result (walk.new.scope.items ≡ walk.old.scope.items) }
    ensures labels { OnOk result (walk.new.labels.items ≡ walk.old.labels.items) }
{
    walk.labels.push(label.copied()?)?;
    visit(alloc, method, walk, body, false)?;
    walk.labels.pop();
    Ok(())
}

#[cycle(walk)]
fn visit_handler(
    alloc: Global,
    method: &Method<'_>,
    walk: &mut Walk,
    name: &LocalName,
    handler: &Tree,
) -> Result<(), NoMemory>
    ensures trace { OnOk result (walks.trace walk.new ≡ walks.after method.now.class.now method.now.namespace (nodes.with_local (nodes.caught name.now) (walks.context walk.old false)) (view handler.now) (walks.trace walk.old)) }
    ensures scope { OnOk result (walk.new.scope.items ≡ walk.old.scope.items) }
    ensures labels { OnOk result (walk.new.labels.items ≡ walk.old.labels.items) }
{
    put_caught(walk, name)?;
    visit(alloc, method, walk, handler, false)?;
    walk.scope.pop();
    Ok(())
}

#[cycle(walk)]
fn visit_block(
    alloc: Global,
    method: &Method<'_>,
    walk: &mut Walk,
    trees: &[Tree],
) -> Result<(), NoMemory>
    ensures trace { OnOk result (walks.trace walk.new ≡ walks.after_statements method.now.class.now method.now.namespace (walks.context walk.old true) (terms_view trees.now) (walks.trace walk.old)) }
    ensures scope { OnOk result (walk.new.scope.items ≡ walk.old.scope.items) }
    ensures labels { OnOk result (walk.new.labels.items ≡ walk.old.labels.items) }
{
    let outer = walk.scope.len();
    for tree in trees {
        visit(alloc, method, walk, tree, true)?;
        define(walk, tree)?;
    }
    walk.scope.truncate(outer);
    Ok(())
}

// Puts what a handler caught into scope.
fn put_caught(walk: &mut Walk, name: &LocalName) -> Result<(), NoMemory>
    ensures trace { walks.trace walk.new ≡ walks.trace walk.old }
    ensures scope { OnOk result (walk.new.scope.items ≡ walk.old.scope.items ++ nodes.caught name.now ∷ []) }
    ensures labels { walk.new.labels.items ≡ walk.old.labels.items }
{
    let local = Local {
        name: name.copied()?,
        tpe: IrType::Any,
        mutable: false,
    };
    walk.scope.push(local)?;
    Ok(())
}

// Puts what a statement defines into scope.
fn define(walk: &mut Walk, tree: &Tree) -> Result<(), NoMemory>
    ensures trace { walks.trace walk.new ≡ walks.trace walk.old }
    ensures scope { OnOk result (walk.new.scope.items ≡ walk.old.scope.items ++ nodes.defined (view tree.now)) }
    ensures labels { walk.new.labels.items ≡ walk.old.labels.items }
{
    if let Tree::VarDef {
        name,
        tpe,
        mutable,
        ..
    } = tree
    {
        let local = Local {
            name: name.copied()?,
            tpe: tpe.copied()?,
            mutable: *mutable,
        };
        walk.scope.push(local)?;
    }
    Ok(())
}

// A walk that begins at the body of a method with these parameters, which it declares.
fn begun(alloc: Global, params: &[ParamDef]) -> Result<Walk, NoMemory>
    ensures trace { IfOk result (λ w. walks.trace w ≡ record { count = 0; declared = map rules.declared_param params.now; findings = walks.no_findings }) }
    ensures scope { IfOk result (λ w. w.scope.items ≡ map rules.local_of params.now) }
    ensures labels { IfOk result (λ w. w.labels.items ≡ []) }
{
    let scope = locals_of(alloc, params)?;
    let declared = declared_params(alloc, params)?;
    Ok(Walk {
        scope,
        labels: Vec::new(alloc),
        count: 0,
        declared,
        findings: Findings::new(),
    })
}

fn locals_of(alloc: Global, params: &[ParamDef]) -> Result<Vec<Local>, NoMemory>
    ensures { IfOk result (λ ls. ls.items ≡ map rules.local_of params.now) }
{
    let mut locals = Vec::new(alloc);
    for param in params {
        locals.push(local_of(param)?)?;
    }
    Ok(locals)
}

fn declared_params(alloc: Global, params: &[ParamDef]) -> Result<Vec<Declared>, NoMemory>
    ensures { IfOk result (λ ds. ds.items ≡ map rules.declared_param params.now) }
{
    let mut declared = Vec::new(alloc);
    for param in params {
        declared.push(declared_param(param)?)?;
    }
    Ok(declared)
}

fn local_of(param: &ParamDef) -> Result<Local, NoMemory>
    ensures { IfOk result (λ l. l ≡ rules.local_of param.now) }
{
    Ok(Local {
        name: param.name.copied()?,
        tpe: param.tpe.copied()?,
        mutable: param.mutable,
    })
}

fn declared_param(param: &ParamDef) -> Result<Declared, NoMemory>
    ensures { IfOk result (λ d. d ≡ rules.declared_param param.now) }
{
    Ok(Declared {
        declaration: Declaration::Local(param.name.copied()?),
        tree: 0,
    })
}

/// Walks over the body of a method.
pub fn walked(alloc: Global, class: &ClassDef, method: &MethodDef) -> Result<Walk, NoMemory>
    ensures declared { IfOk result (λ w. w.declared.items ≡ rules.declared_in method.now) }
    ensures findings { IfOk result (λ w. w.findings ≡ walks.findings_in class.now method.now) }
{
    let mut walk = begun(alloc, method.params.as_slice())?;
    let Some(body) = &method.body else {
        return Ok(walk);
    };
    let namespace = method.namespace;
    visit(
        alloc,
        &Method { class, namespace },
        &mut walk,
        body.tree(),
        false,
    )?;
    Ok(walk)
}
