// Receivers that are never null.
ghost use Rattle.std.specs.Prelude.{◌≡◌, [], map, IfOk, OnOk};
ghost use Rattle.sj_trees.specs.View.{view};
ghost use Rattle.sj_infos.specs.Sure as specs;

use indexmap::IndexSet;
use sj_names::{LocalName, NoMemory};
use sj_trees::{IrType, Tree, type_of};
use std::alloc::Global;

// Whether the values of the type are no objects.
pub fn is_primitive(tpe: &IrType) -> bool
    ensures { result ≡ specs.is_primitive tpe.now }
{
    match tpe {
        IrType::Undefined
        | IrType::Boolean
        | IrType::Char
        | IrType::Byte
        | IrType::Short
        | IrType::Int
        | IrType::Long
        | IrType::String
        | IrType::Null => true,
        IrType::Any | IrType::Nothing | IrType::Class(_) | IrType::Array(_) | IrType::NoType =>
            false,
    }
}

fn is_sure_type(tpe: &IrType) -> bool
    ensures { result ≡ specs.is_sure_type tpe.now }
{
    !matches!(tpe, IrType::Null) && is_primitive(tpe)
}

// Whether the receiver is never null, where these locals are never null.
pub fn is_sure(alloc: Global, sure: &IndexSet<LocalName>, tree: &Tree) -> Result<bool, NoMemory>
    ensures { IfOk result (λ answer. answer ≡ specs.is_sure sure.now.keys (view tree.now)) }
{
    if is_sure_form(sure, tree) {
        return Ok(true);
    }
    let tpe = type_of(alloc, tree)?;
    Ok(is_sure_type(&tpe))
}

fn is_sure_form(sure: &IndexSet<LocalName>, tree: &Tree) -> bool
    ensures { result ≡ specs.is_sure_form sure.now.keys (view tree.now) }
{
    match tree {
        Tree::This { .. }
        | Tree::New { .. }
        | Tree::NewArray { .. }
        | Tree::ArrayValue { .. }
        | Tree::LoadModule { .. } => true,
        Tree::VarRef { name, .. } => sure.contains(name),
        _ => false,
    }
}

// The locals that are never null.
pub fn sure_locals(alloc: Global, trees: &[&Tree]) -> Result<IndexSet<LocalName>, NoMemory>
    ensures { IfOk result (λ sure. sure.keys ≡ specs.sure_among [] (map (λ t. view t.now) trees.now)) }
{
    let mut sure = IndexSet::new(alloc);
    for tree in trees {
        add_local(alloc, &mut sure, tree)?;
    }
    Ok(sure)
}

fn add_local(alloc: Global, sure: &mut IndexSet<LocalName>, tree: &Tree) -> Result<(), NoMemory>
    ensures { OnOk result (sure.new.keys ≡ specs.with_local sure.old.keys (view tree.now)) }
{
    if let Tree::VarDef {
        name,
        mutable: false,
        value,
        ..
    } = tree
    {
        if is_sure(alloc, sure, value)? {
            sure.insert(name.copied()?)?;
        }
    }
    Ok(())
}
