// Helpers by their names.
use crate::texts::line_of;
use anyhow::Result;
use call_cases::{dispatch_of, reflective_of};
use piece_making::{class_of_kind, helper_name};
use sj_emit_help::helper_piece;
use sj_emit_help_spec::{Failure, Helper, Kind};
use sj_infos::{BodyForm, forms_of};
use sj_mangling::{MethodBinding, method_binding};
use sj_names::{ClassName, Member, MethodName};
use sj_trees::MethodDef;
use sj_world::{Fact, LinkedWorld, method_in};
use std::alloc::Global;

/// The line of the helper of this name; `None` where there is none.
pub(crate) fn helper_line(
    alloc: Global,
    linked: &LinkedWorld,
    name: &str,
) -> Result<Option<String>> {
    for helper in helpers() {
        if helper_name(*helper) == name {
            return Ok(Some(fixed_line(alloc, linked, *helper)?));
        }
    }
    call_line(alloc, linked, name)
}

// The line of the function of this name that tells primitive receivers apart.
fn call_line(alloc: Global, linked: &LinkedWorld, name: &str) -> Result<Option<String>> {
    for fact in linked.facts() {
        if let Some(line) = line_by(alloc, linked, fact, name)? {
            return Ok(Some(line));
        }
    }
    Ok(None)
}

fn line_by(alloc: Global, linked: &LinkedWorld, fact: &Fact, name: &str) -> Result<Option<String>> {
    match fact {
        Fact::Called(_, method) => dispatch_by(alloc, linked, method, name),
        Fact::Body(member) => reflective_by(alloc, linked, member, name),
        _ => Ok(None),
    }
}

fn dispatch_by(
    alloc: Global,
    linked: &LinkedWorld,
    method: &MethodName,
    name: &str,
) -> Result<Option<String>> {
    if is_bound(alloc, MethodBinding::Dispatch, method, name)? {
        Ok(Some(dispatch_line(alloc, linked, method)?))
    } else {
        Ok(None)
    }
}

fn dispatch_line(alloc: Global, linked: &LinkedWorld, method: &MethodName) -> Result<String> {
    let piece = dispatch_of(alloc, linked, method)?;
    line_of(alloc, "helper", &piece)
}

fn reflective_line(alloc: Global, linked: &LinkedWorld, proxy: &MethodName) -> Result<String> {
    let piece = reflective_of(alloc, linked, proxy)?;
    line_of(alloc, "helper", &piece)
}

fn fixed_line(alloc: Global, linked: &LinkedWorld, helper: Helper) -> Result<String> {
    let piece = helper_piece(alloc, helper, ancestors_for(linked, helper))?;
    line_of(alloc, "helper", &piece)
}

// The ancestors of the class of a kind, where the helper is what the running code knows of it.
fn ancestors_for<'w>(linked: &'w LinkedWorld, helper: Helper) -> &'w [ClassName] {
    let Helper::ConstantsOf(kind) = helper else {
        return &[];
    };
    for class in linked.world().hijacked() {
        if class.text() == class_of_kind(kind) {
            if let Some(ancestors) = linked.world().ancestors(class) {
                return ancestors;
            }
        }
    }
    &[]
}

fn is_bound(
    alloc: Global,
    binding: MethodBinding,
    method: &MethodName,
    name: &str,
) -> Result<bool> {
    Ok(method_binding(alloc, binding, method)?.as_str() == name)
}

// The function of a reflective name by which the body of the member calls.
fn reflective_by(
    alloc: Global,
    linked: &LinkedWorld,
    member: &Member,
    name: &str,
) -> Result<Option<String>> {
    let Some(class) = linked.world().class(&member.class) else {
        return Ok(None);
    };
    match method_in(class.methods.as_slice(), member) {
        Some(method) => reflective_in(alloc, linked, method, name),
        None => Ok(None),
    }
}

fn reflective_in(
    alloc: Global,
    linked: &LinkedWorld,
    method: &MethodDef,
    name: &str,
) -> Result<Option<String>> {
    let forms = forms_of(alloc, method)?;
    for form in forms.as_slice() {
        if let BodyForm::Reflective(proxy) = form {
            if is_bound(alloc, MethodBinding::Reflective, proxy, name)? {
                return Ok(Some(reflective_line(alloc, linked, proxy)?));
            }
        }
    }
    Ok(None)
}

fn helpers() -> &'static [Helper] {
    &[
        Helper::TestOf(Kind::Undefined),
        Helper::TestOf(Kind::Boolean),
        Helper::TestOf(Kind::Char),
        Helper::TestOf(Kind::Byte),
        Helper::TestOf(Kind::Short),
        Helper::TestOf(Kind::Int),
        Helper::TestOf(Kind::Long),
        Helper::TestOf(Kind::Text),
        Helper::CastTo(Kind::Undefined),
        Helper::CastTo(Kind::Boolean),
        Helper::CastTo(Kind::Char),
        Helper::CastTo(Kind::Byte),
        Helper::CastTo(Kind::Short),
        Helper::CastTo(Kind::Int),
        Helper::CastTo(Kind::Long),
        Helper::CastTo(Kind::Text),
        Helper::ConstantsOf(Kind::Undefined),
        Helper::ConstantsOf(Kind::Boolean),
        Helper::ConstantsOf(Kind::Char),
        Helper::ConstantsOf(Kind::Byte),
        Helper::ConstantsOf(Kind::Short),
        Helper::ConstantsOf(Kind::Int),
        Helper::ConstantsOf(Kind::Long),
        Helper::ConstantsOf(Kind::Text),
        Helper::NotNull,
        Helper::IntQuotient,
        Helper::IntRemainder,
        Helper::LongQuotient,
        Helper::LongRemainder,
        Helper::BoxedChar,
        Helper::Equal,
        Helper::ArrayClass,
        Helper::MakeArray,
        Helper::CheckIndex,
        Helper::Get,
        Helper::Set,
        Helper::Put,
        Helper::Covers,
        Helper::Fits,
        Helper::ClassOf,
        Helper::TestOfArray,
        Helper::CastToArray,
        Helper::Throws(Failure::NullReceiver),
        Helper::Throws(Failure::Division),
        Helper::Throws(Failure::Cast),
        Helper::Throws(Failure::Index),
        Helper::Throws(Failure::Store),
        Helper::Throws(Failure::Size),
        Helper::Throws(Failure::Method),
    ]
}
