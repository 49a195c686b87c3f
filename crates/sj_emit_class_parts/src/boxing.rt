// Results that are boxed where they are chars.
ghost use Rattle.std.specs.Prelude.{◌≡◌, ◌++◌, OnOk};
ghost use Rattle.js_tree.specs.Terms.{Expression};
ghost use Rattle.js_tree.specs.Views.{expression_view};
ghost use Rattle.piece_making.specs.Made.{Makes};
ghost use Rattle.sj_emit_class_spec.specs.Pieces as pieces;

use js_tree::{Binding, JsExpr};
use piece_making::{helper_binding, new_of, one_argument, text};
use sj_emit_help_spec::Helper;
use sj_names::{MethodName, NoMemory, TypeRef};
use std::alloc::Global;

// Whether the result of a method is a char.
fn gives_char(method: &MethodName) -> bool
    ensures { result ≡ pieces.is_char method.now.result }
{
    match &method.result {
        Some(TypeRef::Char) => true,
        _ => false,
    }
}

/// A call of a method, whose result is boxed where it is a char.
pub fn boxed_result(
    alloc: Global,
    method: &MethodName,
    call: Result<JsExpr, NoMemory>,
) -> Result<JsExpr, NoMemory>
    ensures { (e : Expression) → Makes expression_view call e → Makes expression_view result (pieces.boxed_result method.now e) }
{
    if gives_char(method) {
        new_of(text(alloc, "$C"), one_argument(alloc, call))
    } else {
        call
    }
}

/// Puts the class of boxed characters behind other bindings, where the result of the method is a char.
pub fn put_box(
    alloc: Global,
    method: &MethodName,
    bindings: &mut Vec<Binding>,
) -> Result<(), NoMemory>
    ensures { OnOk result (bindings.new.items ≡ bindings.old.items ++ pieces.box_uses method.now) }
{
    if gives_char(method) {
        bindings.push(helper_binding(alloc, Helper::BoxedChar)?)?;
    }
    Ok(())
}
