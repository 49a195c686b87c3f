// What the forms of bodies need.
ghost use Rattle.std.specs.Prelude.{◌≡◌, IfOk, OnOk, Some};
ghost use Rattle.sj_infos.specs.Forms.{forms_by};
ghost use Rattle.sj_baselink.specs.Steps.{Puts};
ghost use Rattle.sj_emit_class_needs.specs.Needs as specs;

use crate::needs::{ClassNeed, put};
use indexmap::IndexSet;
use sj_infos::{BodyForm, forms_of};
use sj_names::{Member, NoMemory};
use sj_trees::MethodDef;
use sj_world::{World, method_in};
use std::alloc::Global;

/// Puts what the body of the member needs.
pub fn put_forms_of(
    alloc: Global,
    w: &World,
    member: &Member,
    needs: &mut IndexSet<ClassNeed>,
) -> Result<(), NoMemory>
    ensures { OnOk result (Puts (specs.IsNeedOf w.now member.now) needs.old.keys needs.new.keys) }
{
    let Some(class) = w.class(&member.class) else {
        return Ok(());
    };
    match method_in(class.methods.as_slice(), member) {
        Some(method) => put_forms_by(alloc, method, needs),
        None => Ok(()),
    }
}

fn put_forms_by(
    alloc: Global,
    method: &MethodDef,
    needs: &mut IndexSet<ClassNeed>,
) -> Result<(), NoMemory>
    ensures { OnOk result (Puts (specs.IsNeedIn (forms_by method.now)) needs.old.keys needs.new.keys) }
{
    let forms = forms_of(alloc, method)?;
    put_forms(&forms, needs)
}

fn put_forms(forms: &[BodyForm], needs: &mut IndexSet<ClassNeed>) -> Result<(), NoMemory>
    ensures { OnOk result (Puts (specs.IsNeedIn forms.now) needs.old.keys needs.new.keys) }
{
    for form in forms {
        put_form(form, needs)?;
    }
    Ok(())
}

fn put_form(form: &BodyForm, needs: &mut IndexSet<ClassNeed>) -> Result<(), NoMemory>
    ensures { OnOk result (Puts (λ n. specs.need_of form.now ≡ Some n) needs.old.keys needs.new.keys) }
{
    let needed = need_of(form)?;
    match needed {
        Some(need) => put(need, needs),
        None => Ok(()),
    }
}

// What a form needs of a class.
fn need_of(form: &BodyForm) -> Result<Option<ClassNeed>, NoMemory>
    ensures { IfOk result (λ need. need ≡ specs.need_of form.now) }
{
    Ok(match form {
        BodyForm::Test(class) => Some(ClassNeed::Test(class.copied()?)),
        BodyForm::Cast(class) => Some(ClassNeed::Cast(class.copied()?)),
        BodyForm::Base(class) => Some(ClassNeed::Base(class.copied()?)),
        BodyForm::Load(class) => Some(ClassNeed::Load(class.copied()?)),
        BodyForm::Store(class) => Some(ClassNeed::Store(class.copied()?)),
        BodyForm::Reflective(_) => None,
    })
}
