// Calls on a receiver, which a function has in front of its arguments.
ghost use Rattle.std.specs.Prelude.{◌≡◌, ◌∷◌, IfOk};
ghost use Rattle.js_tree.specs.Terms as js;
ghost use Rattle.js_tree.specs.Views.{expression_view, expressions_view};
ghost use Rattle.sj_emit_expr_spec.specs.Templates as templates;
ghost use Rattle.sj_emit_expr_parts.specs.Known.{lookup_of};
ghost use Rattle.sj_mangling.specs.Bindings as bindings;
ghost use Rattle.sj_mangling.specs.declared.bindings.MethodBinding.TheVariants.{Entry};

use crate::lookup::CallLookup;
use js_tree::JsExpr;
use sj_core::Callee;
use sj_mangling::{MethodBinding, function_name, method_binding};
use sj_names::{MethodName, NoMemory, Text};
use std::alloc::Global;

/// The first value, and behind it the others.
pub fn in_front(alloc: Global, first: JsExpr, others: Vec<JsExpr>) -> Result<Vec<JsExpr>, NoMemory>
    ensures { IfOk result (λ all. all.items ≡ first ∷ others.items) }
{
    let mut all = Vec::new(alloc);
    all.push(first)?;
    let mut others = others;
    all.append(&mut others)?;
    Ok(all)
}

/// A call of a function on a receiver: `f(receiver, ..)`.
pub fn call_on(
    alloc: Global,
    function: Text,
    receiver: JsExpr,
    arguments: Vec<JsExpr>,
) -> Result<JsExpr, NoMemory>
    ensures { IfOk result (λ e. expression_view e ≡ js.call_of function (js.expression (expression_view receiver) (expressions_view arguments.items))) }
{
    let arguments = in_front(alloc, receiver, arguments)?;
    Ok(JsExpr::Call {
        function,
        arguments,
    })
}

/// A call of a function of one argument.
pub fn call_of_one(alloc: Global, function: Text, argument: JsExpr) -> Result<JsExpr, NoMemory>
    ensures { IfOk result (λ e. expression_view e ≡ js.call_of function (js.expression (expression_view argument) js.no_expressions)) }
{
    let mut arguments = Vec::new(alloc);
    arguments.push(argument)?;
    Ok(JsExpr::Call {
        function,
        arguments,
    })
}

/// `new c()`: a new object of the class.
pub fn new_object(alloc: Global, class: Text) -> JsExpr
    ensures { expression_view result ≡ js.new_of class js.no_expressions }
{
    JsExpr::New {
        class,
        arguments: Vec::new(alloc),
    }
}

/// A call of what is called on a receiver: of the function of a member, of a method that is looked up, or of the function of a reflective name.
pub fn call_of_callee(
    alloc: Global,
    known: &CallLookup,
    callee: &Callee,
    receiver: JsExpr,
    arguments: Vec<JsExpr>,
) -> Result<JsExpr, NoMemory>
    ensures { IfOk result (λ e. expression_view e ≡ templates.call_template (lookup_of known.now) callee.now (expression_view receiver) (expressions_view arguments.items)) }
{
    match callee {
        Callee::Member(member) => {
            let function = function_name(alloc, known.called(member))?;
            call_on(alloc, function, receiver, arguments)
        }
        Callee::LookedUp(class, method) => {
            let has_primitives = known.has_hijacked(class);
            call_looked_up(alloc, has_primitives, method, receiver, arguments)
        }
        Callee::OfArray(method) => call_looked_up(alloc, false, method, receiver, arguments),
        Callee::Reflective(method) => {
            let function = method_binding(alloc, MethodBinding::Reflective, method)?;
            call_on(alloc, function, receiver, arguments)
        }
    }
}

// A call of a method that is looked up: `d_m(receiver, ..)` where primitive values may be the receiver, else `receiver.m_m(..)`.
fn call_looked_up(
    alloc: Global,
    has_primitives: bool,
    method: &MethodName,
    receiver: JsExpr,
    arguments: Vec<JsExpr>,
) -> Result<JsExpr, NoMemory>
    ensures { IfOk result (λ e. expression_view e ≡ templates.looked_up_template has_primitives method.now (expression_view receiver) (expressions_view arguments.items)) }
{
    if has_primitives {
        let function = method_binding(alloc, MethodBinding::Dispatch, method)?;
        call_on(alloc, function, receiver, arguments)
    } else {
        call_entry(alloc, method, receiver, arguments)
    }
}

// A call of the method that an object has under the name.
fn call_entry(
    alloc: Global,
    method: &MethodName,
    receiver: JsExpr,
    arguments: Vec<JsExpr>,
) -> Result<JsExpr, NoMemory>
    ensures { IfOk result (λ e. expression_view e ≡ js.method_call_of (expression_view receiver) (bindings.method_binding Entry method.now) (expressions_view arguments.items)) }
{
    let property = method_binding(alloc, MethodBinding::Entry, method)?;
    let object = Box::new(alloc, receiver)?;
    Ok(JsExpr::MethodCall {
        object,
        property,
        arguments,
    })
}
