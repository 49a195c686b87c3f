// The functions that tell primitive receivers apart.
ghost use Rattle.std.specs.Prelude.{◌≡◌, [], ◌∷◌, ◌++◌, map, IfOk, OnOk, codes};
ghost use Rattle.std.specs.List.{flat_map};
ghost use Rattle.js_tree.specs.Terms as js;
ghost use Rattle.js_tree.specs.Views.{expression_view, piece_view, statement_view, statements_view};
ghost use Rattle.sj_emit_help_spec.specs.Words as words;
ghost use Rattle.piece_making.specs.Made.{Makes};
ghost use Rattle.sj_emit_class_spec.specs.Dispatch as rules;
ghost use Rattle.sj_emit_class_parts.specs.Cases.{told_view, reflected_view};
ghost use Rattle.sj_names.specs.MethodNames.{spelled_method};

use crate::boxing::{boxed_result, put_box};
use crate::once::once;
use js_tree::{BinaryOperator, Binding, JsExpr, JsPiece, JsStmt};
use piece_making::{
    arguments_behind, arguments_of, binary, both, bound, call, expression_statement, function,
    has_word, helper_binding, helper_name, if_only, method_call, name, object_binding,
    one_argument, only_return, parameters_behind, piece, return_of, text, text_of, wide_text,
};
use sj_emit_help_spec::{Failure, Helper, Kind};
use sj_mangling::{MethodBinding, function_name, method_binding};
use sj_names::{ClassName, Member, MethodName, Namespace, NoMemory, Text};
use std::alloc::Global;

/// A kind of receivers, and the class whose body a call runs for it.
#[derive(Drop)]
pub struct Told {
    pub kind: Kind,
    pub owner: ClassName,
}

/// A kind of receivers, the class whose body a reflective call runs for it, and the name of the method that it reaches.
#[derive(Drop)]
pub struct Reflected {
    pub kind: Kind,
    pub owner: ClassName,
    pub method: MethodName,
}

/// The function by which a public method is called on receivers that may be primitive, with a case for each of these kinds.
pub fn dispatch_piece(
    alloc: Global,
    method: &MethodName,
    cases: &[Told],
) -> Result<JsPiece, NoMemory>
    ensures { Makes piece_view result (rules.dispatch_piece method.now (map told_view cases.now)) }
{
    piece(
        alloc,
        object_binding(
            alloc,
            method_binding(alloc, MethodBinding::Dispatch, method),
        ),
        once(alloc, told_uses(alloc, method, cases)),
        function(
            alloc,
            method_binding(alloc, MethodBinding::Dispatch, method),
            parameters_behind(alloc, "x", method),
            dispatch_body(alloc, method, cases),
        ),
    )
}

fn dispatch_body(
    alloc: Global,
    method: &MethodName,
    cases: &[Told],
) -> Result<Vec<JsStmt>, NoMemory>
    ensures { Makes (λ ss. statements_view ss.items) result (rules.dispatch_body method.now (map told_view cases.now)) }
{
    let mut statements = told_cases(alloc, method, cases)?;
    statements.push(return_of(own_call(alloc, method))?)?;
    Ok(statements)
}

fn told_cases(alloc: Global, method: &MethodName, cases: &[Told]) -> Result<Vec<JsStmt>, NoMemory>
    ensures { IfOk result (λ ss. map statement_view ss.items ≡ map (rules.told_case method.now) (map told_view cases.now)) }
{
    let mut statements = Vec::new(alloc);
    for case in cases {
        statements.push(told_case(alloc, method, case)?)?;
    }
    Ok(statements)
}

// `x.m_M(a0, ..)`
fn own_call(alloc: Global, method: &MethodName) -> Result<JsExpr, NoMemory>
    ensures { Makes expression_view result (js.method_call_of words.x (words.entry_name method.now) (words.uses (words.parameters_of method.now))) }
{
    method_call(
        alloc,
        name(alloc, "x"),
        method_binding(alloc, MethodBinding::Entry, method),
        arguments_of(alloc, method),
    )
}

// `if ($isX(x)) { return f_O__M(x, a0, ..); }`
fn told_case(alloc: Global, method: &MethodName, case: &Told) -> Result<JsStmt, NoMemory>
    ensures { Makes statement_view result (rules.told_case method.now (told_view case.now)) }
{
    if_only(
        kind_test(alloc, case.kind),
        only_return(
            alloc,
            call(
                public_function(&case.owner, method, alloc),
                arguments_behind(alloc, name(alloc, "x"), method),
            ),
        ),
    )
}

// `$isX(x)`
fn kind_test(alloc: Global, kind: Kind) -> Result<JsExpr, NoMemory>
    ensures { Makes expression_view result (words.call1 (words.is_name kind) words.x) }
{
    call(
        text(alloc, helper_name(Helper::TestOf(kind))),
        one_argument(alloc, name(alloc, "x")),
    )
}

// The function of a public method of the class.
fn public_function(class: &ClassName, method: &MethodName, alloc: Global) -> Result<Text, NoMemory>
    ensures { IfOk result (λ name. name ≡ words.public_function class.now method.now) }
{
    let member = Member {
        class: class.copied()?,
        namespace: Namespace::Public,
        method: method.copied()?,
    };
    function_name(alloc, &member)
}

fn told_uses(alloc: Global, method: &MethodName, cases: &[Told]) -> Result<Vec<Binding>, NoMemory>
    ensures { IfOk result (λ bs. bs.items ≡ flat_map (rules.told_uses method.now) (map told_view cases.now)) }
{
    let mut bindings = Vec::new(alloc);
    for case in cases {
        put_told(alloc, method, case, &mut bindings)?;
    }
    Ok(bindings)
}

fn put_told(
    alloc: Global,
    method: &MethodName,
    case: &Told,
    bindings: &mut Vec<Binding>,
) -> Result<(), NoMemory>
    ensures { OnOk result (bindings.new.items ≡ bindings.old.items ++ rules.told_uses method.now (told_view case.now)) }
{
    bindings.push(helper_binding(alloc, Helper::TestOf(case.kind))?)?;
    bindings.push(owned_function(alloc, &case.owner, method)?)?;
    Ok(())
}

fn owned_function(
    alloc: Global,
    owner: &ClassName,
    method: &MethodName,
) -> Result<Binding, NoMemory>
    ensures { IfOk result (λ b. b ≡ words.bound owner.now (words.public_function owner.now method.now)) }
{
    bound(owner, public_function(owner, method, alloc))
}

/// The function by which a reflective name is called, with a case for each of these kinds.
pub fn reflective_piece(
    alloc: Global,
    proxy: &MethodName,
    cases: &[Reflected],
) -> Result<JsPiece, NoMemory>
    ensures { Makes piece_view result (rules.reflective_piece proxy.now (map reflected_view cases.now)) }
{
    piece(
        alloc,
        object_binding(
            alloc,
            method_binding(alloc, MethodBinding::Reflective, proxy),
        ),
        once(alloc, reflected_uses(alloc, cases)),
        function(
            alloc,
            method_binding(alloc, MethodBinding::Reflective, proxy),
            parameters_behind(alloc, "x", proxy),
            reflected_body(alloc, proxy, cases),
        ),
    )
}

fn reflected_body(
    alloc: Global,
    proxy: &MethodName,
    cases: &[Reflected],
) -> Result<Vec<JsStmt>, NoMemory>
    ensures { Makes (λ ss. statements_view ss.items) result (rules.reflected_body proxy.now (words.units_of (spelled_method proxy.now)) (map reflected_view cases.now)) }
{
    let mut statements = reflected_cases(alloc, proxy, cases)?;
    statements.push(own_case(alloc, proxy)?)?;
    statements.push(fails(alloc, proxy)?)?;
    Ok(statements)
}

fn reflected_cases(
    alloc: Global,
    proxy: &MethodName,
    cases: &[Reflected],
) -> Result<Vec<JsStmt>, NoMemory>
    ensures { IfOk result (λ ss. map statement_view ss.items ≡ map (rules.reflected_case proxy.now) (map reflected_view cases.now)) }
{
    let mut statements = Vec::new(alloc);
    for case in cases {
        statements.push(reflected_case(alloc, proxy, case)?)?;
    }
    Ok(statements)
}

// `if ($isX(x)) { return f_O__M(x, a0, ..); }`, a char boxed
fn reflected_case(alloc: Global, proxy: &MethodName, case: &Reflected) -> Result<JsStmt, NoMemory>
    ensures { Makes statement_view result (rules.reflected_case proxy.now (reflected_view case.now)) }
{
    if_only(
        kind_test(alloc, case.kind),
        only_return(
            alloc,
            boxed_result(
                alloc,
                &case.method,
                call(
                    public_function(&case.owner, &case.method, alloc),
                    arguments_behind(alloc, name(alloc, "x"), proxy),
                ),
            ),
        ),
    )
}

// `if ((((typeof x) === "object") && ("m_P" in x))) { return x.m_P(a0, ..); }`
fn own_case(alloc: Global, proxy: &MethodName) -> Result<JsStmt, NoMemory>
    ensures { Makes statement_view result (rules.own_case proxy.now) }
{
    if_only(
        both(
            alloc,
            has_word(alloc, name(alloc, "x"), text(alloc, "object")),
            binary(
                alloc,
                text_of(alloc, method_binding(alloc, MethodBinding::Entry, proxy)),
                BinaryOperator::In,
                name(alloc, "x"),
            ),
        ),
        only_return(alloc, own_call(alloc, proxy)),
    )
}

// `$nme("name");`
fn fails(alloc: Global, proxy: &MethodName) -> Result<JsStmt, NoMemory>
    ensures { Makes statement_view result (js.expression_statement (words.call1 (codes "$nme") (js.text_literal (words.units_of (spelled_method proxy.now))))) }
{
    let spelled = proxy.spelled(alloc)?;
    fails_with(alloc, spelled.as_str())
}

fn fails_with(alloc: Global, message: &str) -> Result<JsStmt, NoMemory>
    ensures { Makes statement_view result (js.expression_statement (words.call1 (codes "$nme") (js.text_literal (words.units_of message.now)))) }
{
    expression_statement(call(
        text(alloc, "$nme"),
        one_argument(alloc, wide_text(alloc, message)),
    ))
}

fn reflected_uses(alloc: Global, cases: &[Reflected]) -> Result<Vec<Binding>, NoMemory>
    ensures { IfOk result (λ bs. bs.items ≡ flat_map rules.reflected_uses (map reflected_view cases.now) ++ words.helper (codes "$nme") ∷ []) }
{
    let mut bindings = Vec::new(alloc);
    for case in cases {
        put_reflected(alloc, case, &mut bindings)?;
    }
    bindings.push(helper_binding(alloc, Helper::Throws(Failure::Method))?)?;
    Ok(bindings)
}

fn put_reflected(
    alloc: Global,
    case: &Reflected,
    bindings: &mut Vec<Binding>,
) -> Result<(), NoMemory>
    ensures { OnOk result (bindings.new.items ≡ bindings.old.items ++ rules.reflected_uses (reflected_view case.now)) }
{
    bindings.push(helper_binding(alloc, Helper::TestOf(case.kind))?)?;
    put_box(alloc, &case.method, bindings)?;
    bindings.push(owned_function(alloc, &case.owner, &case.method)?)?;
    Ok(())
}
