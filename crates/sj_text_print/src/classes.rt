// Classes and their members.
ghost use Rattle.std.specs.Prelude.{◌≡◌, OnOk, IfOk, codes};
ghost use Rattle.js_tree.specs.Written.{put, ◌▸◌, put_more, put_separated};
ghost use Rattle.sj_text_spec.specs.Spelling.{Lists};
ghost use Rattle.sj_text_spec.specs.Rules.{HasListing, bare};
ghost use Rattle.sj_text_spec.specs.Texts.{put_list, put_name, put_param, put_field, put_body, put_method, put_superclass, put_class, listing_text};

use crate::literals::append_name;
use crate::parts::{kind_part, mark_part, method_part, name_part, namespace_part, type_part};
use crate::trees::append_tree;
use crate::writing::open;
use sj_names::{ClassName, NoMemory};
use sj_text_spec::each_has_one_listing;
use sj_trees::{Body, ClassDef, FieldDef, MethodDef, ParamDef};
use std::alloc::Global;
use text_print::append;

/// Appends a parameter.
fn append_param(out: &mut Vec<u8>, alloc: Global, param: &ParamDef) -> Result<(), NoMemory>
    ensures { OnOk result (out.new.items ≡ put_param param.now out.old.items) }
{
    open(out, "param")?;
    name_part(out, param.name.text())?;
    mark_part(out, param.mutable)?;
    type_part(out, alloc, &param.tpe)?;
    append(out, ")")
}

/// Appends parameters with a space in front of each.
fn append_more_params(out: &mut Vec<u8>, alloc: Global, params: &[ParamDef]) -> Result<(), NoMemory>
    ensures { OnOk result (out.new.items ≡ put_more (codes " ") put_param params.now out.old.items) }
{
    for param in params {
        append(out, " ")?;
        append_param(out, alloc, param)?;
    }
    Ok(())
}

/// Appends parameters with a space between each two.
fn append_params(out: &mut Vec<u8>, alloc: Global, params: &[ParamDef]) -> Result<(), NoMemory>
    ensures { OnOk result (out.new.items ≡ put_separated (codes " ") put_param params.now out.old.items) }
{
    match params {
        [] => Ok(()),
        [first, others @ ..] => {
            append_param(out, alloc, first)?;
            append_more_params(out, alloc, others)
        }
    }
}

/// Appends parameters in brackets, behind a space.
fn params_part(out: &mut Vec<u8>, alloc: Global, params: &[ParamDef]) -> Result<(), NoMemory>
    ensures { OnOk result (out.new.items ≡ (put (codes " ") ▸ put_list put_param params.now) out.old.items) }
{
    append(out, " ")?;
    append(out, "[")?;
    append_params(out, alloc, params)?;
    append(out, "]")
}

/// Appends a field.
fn append_field(out: &mut Vec<u8>, alloc: Global, field: &FieldDef) -> Result<(), NoMemory>
    ensures { OnOk result (out.new.items ≡ put_field field.now out.old.items) }
{
    open(out, "field")?;
    mark_part(out, field.is_static)?;
    mark_part(out, field.mutable)?;
    name_part(out, field.name.text())?;
    type_part(out, alloc, &field.tpe)?;
    append(out, ")")
}

/// Appends fields with a space in front of each.
fn append_more_fields(out: &mut Vec<u8>, alloc: Global, fields: &[FieldDef]) -> Result<(), NoMemory>
    ensures { OnOk result (out.new.items ≡ put_more (codes " ") put_field fields.now out.old.items) }
{
    for field in fields {
        append(out, " ")?;
        append_field(out, alloc, field)?;
    }
    Ok(())
}

/// Appends fields with a space between each two.
fn append_fields(out: &mut Vec<u8>, alloc: Global, fields: &[FieldDef]) -> Result<(), NoMemory>
    ensures { OnOk result (out.new.items ≡ put_separated (codes " ") put_field fields.now out.old.items) }
{
    match fields {
        [] => Ok(()),
        [first, others @ ..] => {
            append_field(out, alloc, first)?;
            append_more_fields(out, alloc, others)
        }
    }
}

/// Appends fields in brackets, behind a space.
fn fields_part(out: &mut Vec<u8>, alloc: Global, fields: &[FieldDef]) -> Result<(), NoMemory>
    ensures { OnOk result (out.new.items ≡ (put (codes " ") ▸ put_list put_field fields.now) out.old.items) }
{
    append(out, " ")?;
    append(out, "[")?;
    append_fields(out, alloc, fields)?;
    append(out, "]")
}

/// Appends a body behind a space, or `-` where there is none.
fn body_part(out: &mut Vec<u8>, alloc: Global, body: &Option<Body>) -> Result<(), NoMemory>
    ensures { OnOk result (out.new.items ≡ (put (codes " ") ▸ put_body body.now) out.old.items) }
{
    append(out, " ")?;
    match body {
        Some(body) => append_tree(out, alloc, body.tree()),
        None => append(out, "-"),
    }
}

/// Appends a method.
fn append_method(out: &mut Vec<u8>, alloc: Global, method: &MethodDef) -> Result<(), NoMemory>
    ensures { OnOk result (out.new.items ≡ put_method method.now out.old.items) }
{
    open(out, "method")?;
    namespace_part(out, method.namespace)?;
    method_part(out, alloc, &method.name)?;
    params_part(out, alloc, method.params.as_slice())?;
    type_part(out, alloc, &method.result)?;
    body_part(out, alloc, &method.body)?;
    append(out, ")")
}

/// Appends methods with a space in front of each.
fn append_more_methods(
    out: &mut Vec<u8>,
    alloc: Global,
    methods: &[MethodDef],
) -> Result<(), NoMemory>
    ensures { OnOk result (out.new.items ≡ put_more (codes " ") put_method methods.now out.old.items) }
{
    for method in methods {
        append(out, " ")?;
        append_method(out, alloc, method)?;
    }
    Ok(())
}

/// Appends methods with a space between each two.
fn append_methods(out: &mut Vec<u8>, alloc: Global, methods: &[MethodDef]) -> Result<(), NoMemory>
    ensures { OnOk result (out.new.items ≡ put_separated (codes " ") put_method methods.now out.old.items) }
{
    match methods {
        [] => Ok(()),
        [first, others @ ..] => {
            append_method(out, alloc, first)?;
            append_more_methods(out, alloc, others)
        }
    }
}

/// Appends methods in brackets, behind a space.
fn methods_part(out: &mut Vec<u8>, alloc: Global, methods: &[MethodDef]) -> Result<(), NoMemory>
    ensures { OnOk result (out.new.items ≡ (put (codes " ") ▸ put_list put_method methods.now) out.old.items) }
{
    append(out, " ")?;
    append(out, "[")?;
    append_methods(out, alloc, methods)?;
    append(out, "]")
}

/// Appends a superclass behind a space, or `-` where there is none.
fn superclass_part(out: &mut Vec<u8>, superclass: &Option<ClassName>) -> Result<(), NoMemory>
    ensures { OnOk result (out.new.items ≡ (put (codes " ") ▸ put_superclass superclass.now) out.old.items) }
{
    append(out, " ")?;
    let Some(name) = superclass else {
        return append(out, "-");
    };
    append_name(out, name.text())
}

/// Appends names with a space in front of each.
fn append_more_names(out: &mut Vec<u8>, names: &[ClassName]) -> Result<(), NoMemory>
    ensures { OnOk result (out.new.items ≡ put_more (codes " ") put_name names.now out.old.items) }
{
    for name in names {
        append(out, " ")?;
        append_name(out, name.text())?;
    }
    Ok(())
}

/// Appends names with a space between each two.
fn append_names(out: &mut Vec<u8>, names: &[ClassName]) -> Result<(), NoMemory>
    ensures { OnOk result (out.new.items ≡ put_separated (codes " ") put_name names.now out.old.items) }
{
    match names {
        [] => Ok(()),
        [first, others @ ..] => {
            append_name(out, first.text())?;
            append_more_names(out, others)
        }
    }
}

/// Appends the names of interfaces in brackets, behind a space.
fn interfaces_part(out: &mut Vec<u8>, names: &[ClassName]) -> Result<(), NoMemory>
    ensures { OnOk result (out.new.items ≡ (put (codes " ") ▸ put_list put_name names.now) out.old.items) }
{
    append(out, " ")?;
    append(out, "[")?;
    append_names(out, names)?;
    append(out, "]")
}

/// Appends a class.
fn append_class(out: &mut Vec<u8>, alloc: Global, class: &ClassDef) -> Result<(), NoMemory>
    ensures { OnOk result (out.new.items ≡ put_class class.now out.old.items) }
{
    open(out, "class")?;
    name_part(out, class.name.text())?;
    kind_part(out, class.kind)?;
    superclass_part(out, &class.superclass)?;
    interfaces_part(out, class.interfaces.as_slice())?;
    fields_part(out, alloc, class.fields.as_slice())?;
    methods_part(out, alloc, class.methods.as_slice())?;
    append(out, ")")
}

/// The listing of a class: one line, without a line feed, that says all of the class but its positions, its source files and the
/// hashes of its methods.
///
/// Each reference and method name of the class is in its grammar, no class type is that of `java.lang.Object`, and no local or
/// label has a name that the inliner made.
pub fn print_listing(alloc: Global, c: &ClassDef) -> Result<Vec<u8>, NoMemory>
    requires { HasListing c.now }
    ensures listed { IfOk result (λ v. Lists (bare c.now) v.items) }
    ensures text { IfOk result (λ v. v.items ≡ listing_text c.now) }
{
    each_has_one_listing();
    let mut out = Vec::new(alloc);
    append_class(&mut out, alloc, c)?;
    Ok(out)
}
