// Fields and methods of a class by their names.
ghost use Rattle.std.specs.Prelude.{◌↔◌, IsTrue, MatchOption};
ghost use Rattle.sj_world.specs.Members.{IsField, IsMethod};
ghost use Rattle.sj_world.specs.Paths.{IsFirst, HasNone};

use sj_names::{FieldName, Member};
use sj_trees::{FieldDef, MethodDef};

/// The first field with this name and static mark.
pub fn field_in<'c>(
    fields: &'c [FieldDef],
    name: &FieldName,
    is_static: bool,
) -> Option<&'c FieldDef>
    ensures { MatchOption result (HasNone (IsField name.now is_static) fields.now) (λ f. IsFirst (IsField name.now is_static) fields.now f.now) }
{
    for field in fields {
        if is_field(field, name, is_static) {
            return Some(field);
        }
    }
    None
}

fn is_field(field: &FieldDef, name: &FieldName, is_static: bool) -> bool
    ensures { IsTrue result ↔ IsField name.now is_static field.now }
{
    field.is_static == is_static && field.name.is_same(name)
}

/// The first method with the namespace and the name of this member.
pub fn method_in<'c>(methods: &'c [MethodDef], member: &Member) -> Option<&'c MethodDef>
    ensures { MatchOption result (HasNone (IsMethod member.now) methods.now) (λ d. IsFirst (IsMethod member.now) methods.now d.now) }
{
    for method in methods {
        if is_method(method, member) {
            return Some(method);
        }
    }
    None
}

fn is_method(method: &MethodDef, member: &Member) -> bool
    ensures { IsTrue result ↔ IsMethod member.now method.now }
{
    method.namespace == member.namespace && method.name.is_same(&member.method)
}
