// The emitted text of statements.
ghost use Rattle.std.specs.Prelude.{◌≡◌, IfOk};
ghost use Rattle.js_tree.specs.Views as js;
ghost use Rattle.sj_core.specs.Views as core;
ghost use Rattle.sj_emit_expr_spec.specs.Names as names;
ghost use Rattle.sj_emit_expr_spec.specs.Templates as templates;
ghost use Rattle.sj_emit_expr.specs.Cases.{case_template};
ghost use Rattle.sj_emit_expr_parts.specs.Known.{lookup_of};

use crate::expressions::emit_expression;
use js_tree::{HostFunction, JsExpr, JsStmt, SwitchCase};
use sj_core::{CoreCase, CoreExpression, CoreStatement, CoreVariable};
use sj_emit_expr_parts::{
    CallLookup, call_of_one, element_set, host_call, label_name, variable_name,
};
use sj_mangling::{ClassBinding, FieldBinding, class_binding, field_binding};
use sj_names::{Items, NoMemory, Text};
use std::alloc::Global;

// A variable's name, and the text of the value that it gets.
fn variable_and_value(
    alloc: Global,
    known: &CallLookup,
    variable: &CoreVariable,
    value: &CoreExpression,
) -> Result<(Text, JsExpr), NoMemory>
    ensures { IfOk result (λ x. (x.0 ≡ names.variable_name (core.variable_view variable.now)) × (js.expression_view x.1 ≡ templates.expression_template names.variable_name names.label_name (lookup_of known.now) (core.expression_view value.now))) }
{
    let name = variable_name(alloc, variable)?;
    let value = emit_expression(alloc, known, value)?;
    Ok((name, value))
}

// A choice whose second branch has no statements is written without it.
fn choice(test: JsExpr, yes: Vec<JsStmt>, no: Vec<JsStmt>) -> JsStmt
    ensures { js.statement_view result ≡ templates.choice_template (js.expression_view test) (js.statements_view yes.items) (js.statements_view no.items) }
{
    if no.is_empty() {
        JsStmt::If { test, yes }
    } else {
        JsStmt::IfElse { test, yes, no }
    }
}

/// The statement that a statement of the core is emitted as.
#[cycle(statement)]
fn emit_statement(
    alloc: Global,
    known: &CallLookup,
    statement: &CoreStatement,
) -> Result<JsStmt, NoMemory>
    ensures { IfOk result (λ s. js.statement_view s ≡ templates.statement_template names.variable_name names.label_name (lookup_of known.now) (core.statement_view statement.now)) }
{
    match statement {
        CoreStatement::Constant {
            variable,
            value,
            ..
        } => {
            let (name, value) = variable_and_value(alloc, known, variable, value)?;
            Ok(JsStmt::Const { name, value })
        }
        CoreStatement::Define {
            variable,
            value,
            ..
        } => {
            let (name, value) = variable_and_value(alloc, known, variable, value)?;
            Ok(JsStmt::Let { name, value })
        }
        CoreStatement::Declare { variable, .. } => {
            Ok(JsStmt::Declare(variable_name(alloc, variable)?))
        }
        CoreStatement::Assign {
            variable,
            value,
            ..
        } => {
            let (name, value) = variable_and_value(alloc, known, variable, value)?;
            Ok(JsStmt::Assign { name, value })
        }
        CoreStatement::Evaluate { value, .. } => {
            Ok(JsStmt::Expression(emit_expression(alloc, known, value)?))
        }
        CoreStatement::Return { value, .. } => Ok(JsStmt::Return(emit_expression(
            alloc, known, value,
        )?)),
        CoreStatement::Log { value: text, .. } => {
            let text = emit_expression(alloc, known, text)?;
            let call = host_call(alloc, HostFunction::ConsoleLog, text)?;
            Ok(JsStmt::Expression(call))
        }
        CoreStatement::AssignField {
            object,
            class,
            field,
            value,
            ..
        } => {
            let property = field_binding(alloc, FieldBinding::Property, class, field)?;
            let object = emit_expression(alloc, known, object)?;
            let value = emit_expression(alloc, known, value)?;
            Ok(JsStmt::AssignProperty {
                object,
                property,
                value,
            })
        }
        CoreStatement::AssignStatic {
            class,
            field,
            value,
            ..
        } => {
            let setter = field_binding(alloc, FieldBinding::Setter, class, field)?;
            let value = emit_expression(alloc, known, value)?;
            Ok(JsStmt::Expression(call_of_one(alloc, setter, value)?))
        }
        CoreStatement::AssignElement {
            position: _,
            tpe,
            array,
            index,
            value,
        } => {
            let array = emit_expression(alloc, known, array)?;
            let index = emit_expression(alloc, known, index)?;
            let value = emit_expression(alloc, known, value)?;
            Ok(JsStmt::Expression(element_set(alloc, tpe, array, index, value)?))
        }
        CoreStatement::StoreModule { class, value, .. } => {
            let store = class_binding(alloc, ClassBinding::StoreModule, class)?;
            let value = emit_expression(alloc, known, value)?;
            Ok(JsStmt::Expression(call_of_one(alloc, store, value)?))
        }
        CoreStatement::Throw { value, .. } => Ok(JsStmt::Throw(emit_expression(
            alloc, known, value,
        )?)),
        CoreStatement::Leave { label, .. } => Ok(JsStmt::BreakTo(label_name(alloc, label)?)),
        CoreStatement::Break { .. } => Ok(JsStmt::Break),
        CoreStatement::If { test, yes, no, .. } => {
            let test = emit_expression(alloc, known, test)?;
            let yes = emit_statements(alloc, known, yes)?;
            let no = emit_statements(alloc, known, no)?;
            Ok(choice(test, yes, no))
        }
        CoreStatement::While { test, body, .. } => {
            let test = emit_expression(alloc, known, test)?;
            let body = emit_statements(alloc, known, body)?;
            Ok(JsStmt::While { test, body })
        }
        CoreStatement::Loop { body, .. } => Ok(JsStmt::DoForever(emit_statements(
            alloc, known, body,
        )?)),
        CoreStatement::Labeled { label, body, .. } => {
            let label = label_name(alloc, label)?;
            let body = emit_statements(alloc, known, body)?;
            Ok(JsStmt::Labeled { label, body })
        }
        CoreStatement::Try {
            block,
            variable: name,
            handler,
            ..
        } => {
            let body = emit_statements(alloc, known, block)?;
            let name = variable_name(alloc, name)?;
            let handler = emit_statements(alloc, known, handler)?;
            Ok(JsStmt::TryCatch {
                body,
                name,
                handler,
            })
        }
        CoreStatement::Finally {
            block,
            finalizer,
            ..
        } => {
            let body = emit_statements(alloc, known, block)?;
            let finalizer = emit_statements(alloc, known, finalizer)?;
            Ok(JsStmt::TryFinally { body, finalizer })
        }
        CoreStatement::Switch {
            selector,
            cases,
            default,
            ..
        } => {
            let selector = emit_expression(alloc, known, selector)?;
            let cases = emit_cases(alloc, known, cases)?;
            let default = emit_statements(alloc, known, default)?;
            Ok(JsStmt::Switch {
                selector,
                cases,
                default,
            })
        }
    }
}

/// The statements that statements of the core are emitted as.
#[cycle(statement)]
#[tactic(auto, using(std::proofs::lemmas::Grind::common_steps, crate::proofs::Lists::pushes))]
pub fn emit_statements(
    alloc: Global,
    known: &CallLookup,
    statements: &[CoreStatement],
) -> Result<Vec<JsStmt>, NoMemory>
    ensures { IfOk result (λ ss. js.statements_view ss.items ≡ templates.statement_templates names.variable_name names.label_name (lookup_of known.now) (core.statements_view statements.now)) }
{
    let mut emitted = Vec::new(alloc);
    for each in statements {
        emitted.push(emit_statement(alloc, known, each)?)?;
    }
    Ok(emitted)
}

#[cycle(statement)]
#[tactic(auto, using(std::proofs::lemmas::Grind::common_steps, crate::proofs::Lists::pushes))]
fn emit_cases(
    alloc: Global,
    known: &CallLookup,
    cases: &[CoreCase],
) -> Result<Vec<SwitchCase>, NoMemory>
    ensures { IfOk result (λ cs. js.cases_view cs.items ≡ templates.case_templates names.variable_name names.label_name (lookup_of known.now) (core.cases_view cases.now)) }
{
    let mut emitted = Vec::new(alloc);
    for each in cases {
        emitted.push(emit_case(alloc, known, each)?)?;
    }
    Ok(emitted)
}

#[cycle(statement)]
fn emit_case(alloc: Global, known: &CallLookup, case: &CoreCase) -> Result<SwitchCase, NoMemory>
    ensures { IfOk result (λ c. js.case_view c ≡ case_template (lookup_of known.now) (core.case_view case.now)) }
{
    let keys = copied_keys(alloc, case.keys.as_slice())?;
    let body = emit_statements(alloc, known, &case.body)?;
    Ok(SwitchCase { keys, body })
}

fn copied_keys(alloc: Global, keys: &[i32]) -> Result<Items<i32>, NoMemory>
    ensures { IfOk result (λ copies. copies ≡ keys.now) }
{
    let mut copies = Vec::new(alloc);
    for key in keys {
        copies.push(*key)?;
    }
    Ok(Items::from_vec(copies))
}
