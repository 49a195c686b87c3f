// The rules on a tree where it stands.
ghost use Rattle.std.specs.Prelude.{◌≡◌, ◌++◌, [], false, Ok, IfOk, option_map};
ghost use Rattle.std.specs.List.{list_any};
ghost use Rattle.sj_trees.specs.View.{view, terms_view, cases_view};
ghost use Rattle.sj_local.specs.Names.{is_same_text};
ghost use Rattle.sj_local.specs.TreeRules as rules;

use crate::names::{is_empty_type, is_type};
use crate::walks::Local;
use indexmap::IndexSet;
use sj_names::{ClassName, LabelName, LocalName, Namespace, NoMemory};
use sj_trees::{ClassDef, ClassKind, IrType, MatchCase, Tree};
use std::alloc::Global;

// The innermost local of this name.
fn innermost<'s>(scope: &'s [Local], name: &LocalName) -> Option<&'s Local>
    ensures { option_map (λ l. l.now) result ≡ rules.innermost scope.now name.now }
{
    let mut found = None;
    for local in scope {
        if name.is_same(&local.name) {
            found = Some(local);
        }
    }
    found
}

fn has_type(scope: &[Local], name: &LocalName, tpe: &IrType) -> bool
    ensures { result ≡ rules.has_type tpe.now (rules.innermost scope.now name.now) }
{
    match innermost(scope, name) {
        Some(local) => is_type(tpe, &local.tpe),
        None => false,
    }
}

fn is_mutable(scope: &[Local], name: &LocalName) -> bool
    ensures { result ≡ rules.is_mutable (rules.innermost scope.now name.now) }
{
    match innermost(scope, name) {
        Some(local) => local.mutable,
        None => false,
    }
}

fn has_no_trees(trees: &[Tree]) -> bool
    ensures { result ≡ rules.has_no_terms (terms_view trees.now) }
{
    match trees {
        [] => true,
        [_, ..] => false,
    }
}

pub fn breaks_definition(tree: &Tree, in_block: bool) -> bool
    ensures { result ≡ rules.breaks_definition in_block (view tree.now) }
{
    match tree {
        Tree::VarDef { tpe, .. } => !in_block || is_empty_type(tpe),
        Tree::Block { trees, .. } => has_no_trees(trees),
        _ => false,
    }
}

pub fn breaks_variable(tree: &Tree, scope: &[Local]) -> bool
    ensures { result ≡ rules.breaks_variable scope.now (view tree.now) }
{
    match tree {
        Tree::VarRef { name, tpe, .. } => !has_type(scope, name, tpe),
        Tree::Assign { target, .. } => is_immutable(target, scope),
        _ => false,
    }
}

fn is_immutable(tree: &Tree, scope: &[Local]) -> bool
    ensures { result ≡ rules.is_immutable scope.now (view tree.now) }
{
    match tree {
        Tree::VarRef { name, .. } => !is_mutable(scope, name),
        _ => false,
    }
}

fn has_label(labels: &[LabelName], label: &LabelName) -> bool
    ensures { result ≡ list_any (is_same_text label.now) labels.now }
{
    labels.iter().any(|each| label.is_same(each))
}

pub fn breaks_return(tree: &Tree, labels: &[LabelName]) -> bool
    ensures { result ≡ rules.breaks_return labels.now (view tree.now) }
{
    match tree {
        Tree::Return { label, .. } => !has_label(labels, label),
        _ => false,
    }
}

fn is_static(namespace: Namespace) -> bool
    ensures { result ≡ rules.is_static namespace }
{
    matches!(
        namespace,
        Namespace::PublicStatic | Namespace::PrivateStatic
    )
}

fn is_type_of(tpe: &IrType, class: &ClassName) -> Result<bool, NoMemory>
    ensures { IfOk result (λ is. is ≡ rules.is_type_of tpe.now class.now) }
{
    let own = IrType::of_class(class.copied()?);
    Ok(is_type(tpe, &own))
}

pub fn breaks_this(tree: &Tree, class: &ClassDef, namespace: Namespace) -> Result<bool, NoMemory>
    ensures { IfOk result (λ broken. broken ≡ rules.breaks_this class.now namespace (view tree.now)) }
{
    match tree {
        Tree::This { tpe, .. } => Ok(is_static(namespace) || !is_type_of(tpe, &class.name)?),
        _ => Ok(false),
    }
}

fn is_this(tree: &Tree) -> bool
    ensures { result ≡ rules.is_this (view tree.now) }
{
    matches!(tree, Tree::This { .. })
}

fn is_module_constructor(class: &ClassDef, namespace: Namespace) -> bool
    ensures { result ≡ rules.is_module_constructor class.now namespace }
{
    class.kind == ClassKind::ModuleClass && namespace == Namespace::Constructor
}

pub fn breaks_store(tree: &Tree, class: &ClassDef, namespace: Namespace) -> bool
    ensures { result ≡ rules.breaks_store class.now namespace (view tree.now) }
{
    match tree {
        Tree::StoreModule {
            class: name,
            value,
            ..
        } => {
            let is_right = is_module_constructor(class, namespace)
                && name.is_same(&class.name)
                && is_this(value);
            !is_right
        }
        _ => false,
    }
}

fn is_target(tree: &Tree) -> bool
    ensures { result ≡ rules.is_target (view tree.now) }
{
    matches!(
        tree,
        Tree::VarRef { .. }
            | Tree::Select { .. }
            | Tree::SelectStatic { .. }
            | Tree::ArraySelect { .. }
    )
}

pub fn breaks_target(tree: &Tree) -> bool
    ensures { result ≡ rules.breaks_target (view tree.now) }
{
    match tree {
        Tree::Assign { target, .. } => !is_target(target),
        _ => false,
    }
}

pub fn breaks_keys(alloc: Global, tree: &Tree) -> Result<bool, NoMemory>
    ensures { IfOk result (λ broken. broken ≡ rules.breaks_keys (view tree.now)) }
{
    match tree {
        Tree::Match { cases, .. } => have_repeat(alloc, cases),
        _ => Ok(false),
    }
}

// Whether a key of a case came before.
fn have_repeat(alloc: Global, cases: &[MatchCase]) -> Result<bool, NoMemory>
    ensures { IfOk result (λ broken. broken ≡ rules.have_repeat [] (cases_view cases.now)) }
{
    let mut earlier = IndexSet::new(alloc);
    for case in cases {
        if add_keys(&mut earlier, case.keys.as_slice())? {
            return Ok(true);
        }
    }
    Ok(false)
}

// Adds keys up to the first that is there already, and whether there is one.
fn add_keys(earlier: &mut IndexSet<i32>, keys: &[i32]) -> Result<bool, NoMemory>
    ensures repeat { IfOk result (λ broken. broken ≡ rules.has_repeat earlier.old.keys keys.now) }
    ensures added { result ≡ Ok false → earlier.new.keys ≡ earlier.old.keys ++ keys.now }
{
    for key in keys {
        if !earlier.insert(*key)? {
            return Ok(true);
        }
    }
    Ok(false)
}
