// The forms of a body for which a class needs code of its own.
ghost use Rattle.std.specs.Prelude.{◌≡◌, ◌++◌, map, IfOk, OnOk};
ghost use Rattle.sj_trees.specs.View.{view};
ghost use Rattle.sj_infos.specs.Forms as specs;

use crate::trees::trees_in;
use sj_names::{BaseRef, ClassName, MethodName, NoMemory};
use sj_trees::{Body, IrType, MethodDef, Tree};
use std::alloc::Global;

/// A form of a body for which a class needs code of its own.
#[derive(Drop)]
pub enum BodyForm {
    /// A test whether a value is of the class.
    Test(ClassName),
    /// A cast to the class.
    Cast(ClassName),
    /// The class is the base of an array that is made, or of an array type that is tested or cast to.
    Base(ClassName),
    /// The instance of the module class.
    Load(ClassName),
    /// The instance of the module class is set.
    Store(ClassName),
    /// A call by a reflective name.
    Reflective(MethodName),
}

/// The tests, casts, bases of arrays, loads, stores and reflective names in the body of a method, in the order of its trees, each as
/// often as it stands there. A case of a match without keys has its forms too. An abstract method has none.
pub fn forms_of(alloc: Global, m: &MethodDef) -> Result<Vec<BodyForm>, NoMemory>
    ensures { IfOk result (λ forms. forms.items ≡ specs.forms_by m.now) }
{
    match &m.body {
        Some(body) => forms_in(alloc, body),
        None => Ok(Vec::new(alloc)),
    }
}

fn forms_in(alloc: Global, body: &Body) -> Result<Vec<BodyForm>, NoMemory>
    ensures { IfOk result (λ forms. forms.items ≡ specs.forms_in body.now) }
{
    let trees = trees_in(alloc, body.tree())?;
    forms_among(alloc, &trees)
}

fn forms_among(alloc: Global, trees: &[&Tree]) -> Result<Vec<BodyForm>, NoMemory>
    ensures { IfOk result (λ forms. forms.items ≡ specs.forms_among (map (λ t. view t.now) trees.now)) }
{
    let mut forms = Vec::new(alloc);
    for tree in trees {
        add_form(tree, &mut forms)?;
    }
    Ok(forms)
}

// Adds the form that a tree is.
fn add_form(tree: &Tree, forms: &mut Vec<BodyForm>) -> Result<(), NoMemory>
    ensures { OnOk result (forms.new.items ≡ forms.old.items ++ specs.form_of (view tree.now)) }
{
    match tree {
        Tree::LoadModule { class, .. } => {
            forms.push(BodyForm::Load(class.copied()?))?;
            Ok(())
        }
        Tree::StoreModule { class, .. } => {
            forms.push(BodyForm::Store(class.copied()?))?;
            Ok(())
        }
        Tree::Apply { method, .. } => add_call(method, forms),
        Tree::NewArray { array, .. } | Tree::ArrayValue { array, .. } => add_base(
            &array.base,
            forms,
        ),
        Tree::IsInstanceOf { tpe, .. } => add_test(tpe, forms),
        Tree::AsInstanceOf { tpe, .. } => add_cast(tpe, forms),
        _ => Ok(()),
    }
}

fn add_call(method: &MethodName, forms: &mut Vec<BodyForm>) -> Result<(), NoMemory>
    ensures { OnOk result (forms.new.items ≡ forms.old.items ++ specs.of_call method.now) }
{
    if method.result.is_none() {
        forms.push(BodyForm::Reflective(method.copied()?))?;
    }
    Ok(())
}

fn add_base(base: &BaseRef, forms: &mut Vec<BodyForm>) -> Result<(), NoMemory>
    ensures { OnOk result (forms.new.items ≡ forms.old.items ++ specs.of_base base.now) }
{
    if let BaseRef::Class(class) = base {
        forms.push(BodyForm::Base(class.copied()?))?;
    }
    Ok(())
}

fn add_test(tpe: &IrType, forms: &mut Vec<BodyForm>) -> Result<(), NoMemory>
    ensures { OnOk result (forms.new.items ≡ forms.old.items ++ specs.of_test tpe.now) }
{
    match tpe {
        IrType::Class(class) => {
            forms.push(BodyForm::Test(class.copied()?))?;
            Ok(())
        }
        IrType::Array(array) => add_base(&array.base, forms),
        _ => Ok(()),
    }
}

fn add_cast(tpe: &IrType, forms: &mut Vec<BodyForm>) -> Result<(), NoMemory>
    ensures { OnOk result (forms.new.items ≡ forms.old.items ++ specs.of_cast tpe.now) }
{
    match tpe {
        IrType::Class(class) => {
            forms.push(BodyForm::Cast(class.copied()?))?;
            Ok(())
        }
        IrType::Array(array) => add_base(&array.base, forms),
        _ => Ok(()),
    }
}
