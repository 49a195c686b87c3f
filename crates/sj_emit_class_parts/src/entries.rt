// The method entries of a class.
ghost use Rattle.std.specs.Prelude.{◌≡◌, ◌++◌, OnOk, IfOk};
ghost use Rattle.js_tree.specs.Views.{expression_view, member_view};
ghost use Rattle.sj_emit_help_spec.specs.Words as words;
ghost use Rattle.piece_making.specs.Made.{Makes};
ghost use Rattle.sj_emit_expr_spec.specs.Templates.{member_name};
ghost use Rattle.sj_emit_class_spec.specs.Pieces as pieces;

use crate::boxing::{boxed_result, put_box};
use js_tree::{Binding, ClassMember, JsExpr};
use piece_making::{
    arguments_behind, arguments_of, bound, call, method, method_call, only_return, parameters_of,
};
use sj_mangling::{MethodBinding, function_name, method_binding};
use sj_names::NoMemory;
use sj_world::MethodEntry;
use std::alloc::Global;

/// The member of a class for an entry: it hands its call on to a function, or for a reflective name to another entry.
pub fn entry_member(alloc: Global, entry: &MethodEntry) -> Result<ClassMember, NoMemory>
    ensures { Makes member_view result (pieces.entry_member entry.now) }
{
    method(
        alloc,
        method_binding(alloc, MethodBinding::Entry, &entry.name),
        parameters_of(alloc, &entry.name),
        only_return(alloc, entry_call(alloc, entry)),
    )
}

fn entry_call(alloc: Global, entry: &MethodEntry) -> Result<JsExpr, NoMemory>
    ensures { Makes expression_view result (pieces.entry_call entry.now) }
{
    if entry.name.result.is_none() {
        proxy_call(alloc, entry)
    } else {
        direct_call(alloc, entry)
    }
}

fn direct_call(alloc: Global, entry: &MethodEntry) -> Result<JsExpr, NoMemory>
    ensures { Makes expression_view result (pieces.direct_call entry.now) }
{
    call(
        function_name(alloc, &entry.target),
        arguments_behind(alloc, Ok(JsExpr::This), &entry.name),
    )
}

fn proxy_call(alloc: Global, entry: &MethodEntry) -> Result<JsExpr, NoMemory>
    ensures { Makes expression_view result (pieces.proxy_call entry.now) }
{
    boxed_result(
        alloc,
        &entry.target.method,
        method_call(
            alloc,
            Ok(JsExpr::This),
            method_binding(alloc, MethodBinding::Entry, &entry.target.method),
            arguments_of(alloc, &entry.name),
        ),
    )
}

/// Puts the bindings that an entry uses behind others.
pub fn put_uses(
    alloc: Global,
    entry: &MethodEntry,
    bindings: &mut Vec<Binding>,
) -> Result<(), NoMemory>
    ensures { OnOk result (bindings.new.items ≡ bindings.old.items ++ pieces.entry_uses entry.now) }
{
    if entry.name.result.is_none() {
        put_box(alloc, &entry.target.method, bindings)
    } else {
        bindings.push(target_function(alloc, entry)?)?;
        Ok(())
    }
}

fn target_function(alloc: Global, entry: &MethodEntry) -> Result<Binding, NoMemory>
    ensures { IfOk result (λ b. b ≡ words.bound entry.now.target.class (member_name entry.now.target)) }
{
    bound(&entry.target.class, function_name(alloc, &entry.target))
}
