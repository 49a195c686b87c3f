// The reflective names by which bodies that are needed call.
ghost use Rattle.std.specs.Prelude.{◌≡◌, IfOk, OnOk, Contains};
ghost use Rattle.sj_infos.specs.Forms.{forms_by};
ghost use Rattle.sj_infos.specs.declared.forms.BodyForm.TheVariants.{Reflective};
ghost use Rattle.sj_baselink.specs.Steps.{Puts, AreReflective, IsReflectiveBy, IsReflectiveIn};

use crate::named::put_name;
use indexmap::IndexSet;
use sj_infos::{BodyForm, forms_of};
use sj_names::{Member, MethodName, NoMemory};
use sj_trees::MethodDef;
use sj_world::{Fact, World, method_in};
use std::alloc::Global;

/// The reflective names by which the bodies call that are needed, each once.
pub fn reflective_names(
    alloc: Global,
    w: &World,
    facts: &[Fact],
) -> Result<IndexSet<MethodName>, NoMemory>
    ensures { IfOk result (λ names. AreReflective w.now facts.now names.keys) }
{
    let mut names = IndexSet::new(alloc);
    for fact in facts {
        put_reflective(alloc, w, fact, &mut names)?;
    }
    Ok(names)
}

// Puts the reflective names by which the body calls that the fact needs, if it needs one.
fn put_reflective(
    alloc: Global,
    w: &World,
    fact: &Fact,
    names: &mut IndexSet<MethodName>,
) -> Result<(), NoMemory>
    ensures { OnOk result (Puts (IsReflectiveBy w.now fact.now) names.old.keys names.new.keys) }
{
    match fact {
        Fact::Body(member) => put_reflective_in(alloc, w, member, names),
        _ => Ok(()),
    }
}

fn put_reflective_in(
    alloc: Global,
    w: &World,
    member: &Member,
    names: &mut IndexSet<MethodName>,
) -> Result<(), NoMemory>
    ensures { OnOk result (Puts (IsReflectiveIn w.now member.now) names.old.keys names.new.keys) }
{
    let Some(class) = w.class(&member.class) else {
        return Ok(());
    };
    match method_in(class.methods.as_slice(), member) {
        Some(method) => put_reflective_of(alloc, method, names),
        None => Ok(()),
    }
}

fn put_reflective_of(
    alloc: Global,
    method: &MethodDef,
    names: &mut IndexSet<MethodName>,
) -> Result<(), NoMemory>
    ensures { OnOk result (Puts (λ p. Contains (forms_by method.now) (Reflective p)) names.old.keys names.new.keys) }
{
    let forms = forms_of(alloc, method)?;
    put_reflective_among(&forms, names)
}

fn put_reflective_among(
    forms: &[BodyForm],
    names: &mut IndexSet<MethodName>,
) -> Result<(), NoMemory>
    ensures { OnOk result (Puts (λ p. Contains forms.now (Reflective p)) names.old.keys names.new.keys) }
{
    for form in forms {
        put_if_reflective(form, names)?;
    }
    Ok(())
}

fn put_if_reflective(form: &BodyForm, names: &mut IndexSet<MethodName>) -> Result<(), NoMemory>
    ensures { OnOk result (Puts (λ p. form.now ≡ Reflective p) names.old.keys names.new.keys) }
{
    match form {
        BodyForm::Reflective(proxy) => put_name(proxy, names),
        _ => Ok(()),
    }
}
