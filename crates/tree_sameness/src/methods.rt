// Whether fields and methods are equal apart from positions.
ghost use Rattle.std.specs.Prelude.{◌≡◌, ◌↔◌, IsTrue, option_map};
ghost use Rattle.sj_trees.specs.Erase.{erase};
ghost use Rattle.tree_sameness.specs.Apart.{field_apart, method_apart};

use crate::trees::{is_same_namespace, is_same_tree};
use sj_trees::{Body, FieldDef, MethodDef, ParamDef};

/// Whether both are the same field, apart from positions.
pub fn is_same_field(field: &FieldDef, other: &FieldDef) -> bool
    ensures { IsTrue result ↔ (field_apart field.now ≡ field_apart other.now) }
{
    field.is_static == other.is_static
        && field.mutable == other.mutable
        && field.name.is_same(&other.name)
        && field.tpe.is_same(&other.tpe)
}

/// Whether both are the same method, apart from positions and stored hashes.
pub fn is_same_method(method: &MethodDef, other: &MethodDef) -> bool
    ensures { IsTrue result ↔ (method_apart method.now ≡ method_apart other.now) }
{
    is_same_namespace(method.namespace, other.namespace)
        && method.name.is_same(&other.name)
        && method.result.is_same(&other.result)
        && are_same_params(method.params.as_slice(), other.params.as_slice())
        && is_same_body(&method.body, &other.body)
}

fn are_same_params(params: &[ParamDef], others: &[ParamDef]) -> bool
    ensures { IsTrue result ↔ (params.now ≡ others.now) }
{
    if params.len() != others.len() {
        return false;
    }
    for i in 0..params.len() {
        if !params[i].is_same(&others[i]) {
            return false;
        }
    }
    true
}

fn is_same_body(body: &Option<Body>, other: &Option<Body>) -> bool
    ensures { IsTrue result ↔ (option_map erase body.now ≡ option_map erase other.now) }
{
    match (body, other) {
        (Some(body), Some(other)) => is_same_tree(body.tree(), other.tree()),
        (None, None) => true,
        _ => false,
    }
}
