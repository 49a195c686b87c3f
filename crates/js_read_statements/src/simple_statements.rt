//! Statements that hold no statement.
ghost use Rattle.std.specs.Prelude.{◌≡◌, ◌==◌, codes};
ghost use Rattle.exact_place.specs.Reading.{after_at, either_at, lead_at, map_at, literal_at, value_at};
ghost use Rattle.js_tree.specs.Terms as terms;
ghost use Rattle.js_tree.specs.Views as views;
ghost use Rattle.text_scan.specs.Gives.{Gives};
ghost use Rattle.js_read_spec.specs.Statements as reading;
ghost use Rattle.js_read_spec.specs.Tokens.{name_at};

use js_read_expressions::expression_between;
use js_read_scan::name_behind;
use js_tree::{JsExpr, JsStmt};
use sj_names::Text;
use std::alloc::Global;
use text_scan::{Stop, literal, next_is};

/// What a reader of statements gives: the statement and the rest.
pub type Read<'a> = Result<(JsStmt, &'a [u8]), Stop>;

/// What stands behind `const`.
#[tactic(auto, unfolding(js_read_spec::specs::Statements::ended_at, js_read_scan::specs::Parts::before_at))]
pub fn const_after<'a>(alloc: Global, fuel: usize, bytes: &'a [u8]) -> Read<'a>
    ensures { Gives (λ x. (views.statement_view x.0, x.1.now)) result ((lead_at (codes " ") (after_at name_at (λ x. lead_at (codes " = ") (reading.ended_at (reading.statement_at fuel) fuel (λ e. terms.const_of x e))))) bytes.now) }
{
    let (name, rest) = name_behind(alloc, b" ", bytes)?;
    let (value, rest) = expression_between(alloc, fuel, b" = ", b";", rest)?;
    Ok((JsStmt::Const { name, value }, rest))
}

// What stands behind the name of a variable.
#[tactic(auto, unfolding(js_read_spec::specs::Statements::ended_at, js_read_scan::specs::Parts::before_at))]
fn declared_of<'a>(alloc: Global, fuel: usize, name: Text, bytes: &'a [u8]) -> Read<'a>
    ensures { Gives (λ x. (views.statement_view x.0, x.1.now)) result ((either_at (λ c. c == 59) (lead_at (codes ";") (value_at (terms.declare_of name))) (lead_at (codes " = ") (reading.ended_at (reading.statement_at fuel) fuel (λ e. terms.let_of name e)))) bytes.now) }
{
    if next_is(b';', bytes) {
        let rest = literal(b";", bytes)?;
        Ok((JsStmt::Declare(name), rest))
    } else {
        let (value, rest) = expression_between(alloc, fuel, b" = ", b";", bytes)?;
        Ok((JsStmt::Let { name, value }, rest))
    }
}

/// What stands behind `let`.
pub fn let_after<'a>(alloc: Global, fuel: usize, bytes: &'a [u8]) -> Read<'a>
    ensures { Gives (λ x. (views.statement_view x.0, x.1.now)) result ((lead_at (codes " ") (after_at name_at (λ x. either_at (λ c. c == 59) (lead_at (codes ";") (value_at (terms.declare_of x))) (lead_at (codes " = ") (reading.ended_at (reading.statement_at fuel) fuel (λ e. terms.let_of x e)))))) bytes.now) }
{
    let (name, rest) = name_behind(alloc, b" ", bytes)?;
    declared_of(alloc, fuel, name, rest)
}

/// What stands behind `super`.
pub fn super_after(bytes: &[u8]) -> Read
    ensures { Gives (λ x. (views.statement_view x.0, x.1.now)) result ((lead_at (codes "();") (value_at terms.super_call)) bytes.now) }
{
    let rest = literal(b"();", bytes)?;
    Ok((JsStmt::SuperCall, rest))
}

/// What stands behind `throw`.
#[tactic(auto, unfolding(js_read_spec::specs::Statements::ended_at, js_read_scan::specs::Parts::before_at))]
pub fn throw_after<'a>(alloc: Global, fuel: usize, bytes: &'a [u8]) -> Read<'a>
    ensures { Gives (λ x. (views.statement_view x.0, x.1.now)) result ((lead_at (codes " ") (reading.ended_at (reading.statement_at fuel) fuel (λ e. terms.throw_of e))) bytes.now) }
{
    let (value, rest) = expression_between(alloc, fuel, b" ", b";", bytes)?;
    Ok((JsStmt::Throw(value), rest))
}

/// What stands behind `return`.
#[tactic(auto, unfolding(js_read_spec::specs::Statements::ended_at, js_read_scan::specs::Parts::before_at))]
pub fn return_after<'a>(alloc: Global, fuel: usize, bytes: &'a [u8]) -> Read<'a>
    ensures { Gives (λ x. (views.statement_view x.0, x.1.now)) result ((lead_at (codes " ") (reading.ended_at (reading.statement_at fuel) fuel (λ e. terms.return_of e))) bytes.now) }
{
    let (value, rest) = expression_between(alloc, fuel, b" ", b";", bytes)?;
    Ok((JsStmt::Return(value), rest))
}

/// What stands behind `break`.
pub fn break_after<'a>(alloc: Global, bytes: &'a [u8]) -> Read<'a>
    ensures { Gives (λ x. (views.statement_view x.0, x.1.now)) result ((either_at (λ c. c == 59) (lead_at (codes ";") (value_at terms.break_nearest)) (lead_at (codes " ") (after_at name_at (λ x. map_at (λ u. terms.break_to x) (literal_at (codes ";")))))) bytes.now) }
{
    if next_is(b';', bytes) {
        let rest = literal(b";", bytes)?;
        Ok((JsStmt::Break, rest))
    } else {
        let (label, rest) = name_behind(alloc, b" ", bytes)?;
        let rest = literal(b";", rest)?;
        Ok((JsStmt::BreakTo(label), rest))
    }
}

/// The semicolon behind an expression that is the statement.
pub fn expression_end(expression: JsExpr, bytes: &[u8]) -> Read
    ensures { Gives (λ x. (views.statement_view x.0, x.1.now)) result ((lead_at (codes ";") (value_at (terms.expression_statement (views.expression_view expression)))) bytes.now) }
{
    let rest = literal(b";", bytes)?;
    Ok((JsStmt::Expression(expression), rest))
}

/// What stands behind a name that stands first, where no block follows.
#[tactic(auto, unfolding(js_read_spec::specs::Statements::ended_at, js_read_scan::specs::Parts::before_at))]
pub fn name_target_of<'a>(alloc: Global, fuel: usize, name: Text, bytes: &'a [u8]) -> Read<'a>
    ensures { Gives (λ x. (views.statement_view x.0, x.1.now)) result ((either_at (λ c. c == 32) (lead_at (codes " = ") (reading.ended_at (reading.statement_at fuel) fuel (λ e. terms.assign_name name e))) (lead_at (codes ";") (value_at (terms.expression_statement (terms.name_use name))))) bytes.now) }
{
    if next_is(b' ', bytes) {
        let (value, rest) = expression_between(alloc, fuel, b" = ", b";", bytes)?;
        Ok((JsStmt::Assign { name, value }, rest))
    } else {
        expression_end(JsExpr::Name(name), bytes)
    }
}

/// What stands behind a property that stands first.
#[tactic(auto, unfolding(js_read_spec::specs::Statements::ended_at, js_read_scan::specs::Parts::before_at))]
pub fn property_target_of<'a>(
    alloc: Global,
    fuel: usize,
    object: Box<JsExpr>,
    property: Text,
    bytes: &'a [u8],
) -> Read<'a>
    ensures { Gives (λ x. (views.statement_view x.0, x.1.now)) result ((either_at (λ c. c == 32) (lead_at (codes " = ") (reading.ended_at (reading.statement_at fuel) fuel (λ e. terms.assign_property (views.expression_view object.value) property e))) (lead_at (codes ";") (value_at (terms.expression_statement (terms.property_of (views.expression_view object.value) property))))) bytes.now) }
{
    if next_is(b' ', bytes) {
        let (value, rest) = expression_between(alloc, fuel, b" = ", b";", bytes)?;
        let object = Box::into_inner(object);
        Ok((
            JsStmt::AssignProperty {
                object,
                property,
                value,
            },
            rest,
        ))
    } else {
        expression_end(JsExpr::Property { object, property }, bytes)
    }
}

/// What stands behind an element that stands first.
#[tactic(auto, unfolding(js_read_spec::specs::Statements::ended_at, js_read_scan::specs::Parts::before_at))]
pub fn index_target_of<'a>(
    alloc: Global,
    fuel: usize,
    object: Box<JsExpr>,
    index: Box<JsExpr>,
    bytes: &'a [u8],
) -> Read<'a>
    ensures { Gives (λ x. (views.statement_view x.0, x.1.now)) result ((either_at (λ c. c == 32) (lead_at (codes " = ") (reading.ended_at (reading.statement_at fuel) fuel (λ e. terms.assign_index (views.expression_view object.value) (views.expression_view index.value) e))) (lead_at (codes ";") (value_at (terms.expression_statement (terms.index_of (views.expression_view object.value) (views.expression_view index.value)))))) bytes.now) }
{
    if next_is(b' ', bytes) {
        let (value, rest) = expression_between(alloc, fuel, b" = ", b";", bytes)?;
        let object = Box::into_inner(object);
        let index = Box::into_inner(index);
        Ok((
            JsStmt::AssignIndex {
                object,
                index,
                value,
            },
            rest,
        ))
    } else {
        expression_end(JsExpr::Index { object, index }, bytes)
    }
}

/// The loop with no end over these statements.
pub fn forever(body: Vec<JsStmt>) -> JsStmt
    ensures { views.statement_view result ≡ terms.do_forever (views.statements_view body.items) }
{
    JsStmt::DoForever(body)
}
