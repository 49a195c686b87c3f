// Statements.
ghost use Rattle.std.specs.Prelude.{◌≡◌, IfOk};
ghost use Rattle.js_tree.specs.Terms as js;
ghost use Rattle.js_tree.specs.Views.{expression_view, statement_view, statements_view};
ghost use Rattle.piece_making.specs.Made.{Makes};

use js_tree::{JsExpr, JsStmt};
use sj_names::{NoMemory, Text};
use std::alloc::Global;

/// `return e;`
pub fn return_of(value: Result<JsExpr, NoMemory>) -> Result<JsStmt, NoMemory>
    ensures { (e : js.Expression) → Makes expression_view value e → Makes statement_view result (js.return_of e) }
{
    Ok(JsStmt::Return(value?))
}

/// `e;`
pub fn expression_statement(value: Result<JsExpr, NoMemory>) -> Result<JsStmt, NoMemory>
    ensures { (e : js.Expression) → Makes expression_view value e → Makes statement_view result (js.expression_statement e) }
{
    Ok(JsStmt::Expression(value?))
}

/// `this.p = e;`
pub fn set_property(
    property: Result<Text, NoMemory>,
    value: Result<JsExpr, NoMemory>,
) -> Result<JsStmt, NoMemory>
    ensures { (p : js.Name) (e : js.Expression) → IfOk property (λ t. t ≡ p) → Makes expression_view value e → Makes statement_view result (js.assign_property js.this_use p e) }
{
    let property = property?;
    Ok(JsStmt::AssignProperty {
        object: JsExpr::This,
        property,
        value: value?,
    })
}

/// `x = e;`
pub fn assign(
    name: Result<Text, NoMemory>,
    value: Result<JsExpr, NoMemory>,
) -> Result<JsStmt, NoMemory>
    ensures { (x : js.Name) (e : js.Expression) → IfOk name (λ t. t ≡ x) → Makes expression_view value e → Makes statement_view result (js.assign_name x e) }
{
    let name = name?;
    Ok(JsStmt::Assign {
        name,
        value: value?,
    })
}

/// `const x = e;`
pub fn constant(
    name: Result<Text, NoMemory>,
    value: Result<JsExpr, NoMemory>,
) -> Result<JsStmt, NoMemory>
    ensures { (x : js.Name) (e : js.Expression) → IfOk name (λ t. t ≡ x) → Makes expression_view value e → Makes statement_view result (js.const_of x e) }
{
    let name = name?;
    Ok(JsStmt::Const {
        name,
        value: value?,
    })
}

/// `if (test) { S }`
pub fn if_only(
    test: Result<JsExpr, NoMemory>,
    yes: Result<Vec<JsStmt>, NoMemory>,
) -> Result<JsStmt, NoMemory>
    ensures { (c : js.Expression) (ss : js.Statements) → Makes expression_view test c → Makes (λ ss. statements_view ss.items) yes ss → Makes statement_view result (js.if_only c ss) }
{
    let yes = yes?;
    Ok(JsStmt::If { test: test?, yes })
}

/// One statement.
pub fn one_statement(alloc: Global, one: Result<JsStmt, NoMemory>) -> Result<Vec<JsStmt>, NoMemory>
    ensures { (s : js.Statement) → Makes statement_view one s → Makes (λ ss. statements_view ss.items) result (js.statement s js.no_statements) }
{
    Ok(vec![in alloc; one?]?)
}

/// Two statements.
pub fn two_statements(
    alloc: Global,
    one: Result<JsStmt, NoMemory>,
    two: Result<JsStmt, NoMemory>,
) -> Result<Vec<JsStmt>, NoMemory>
    ensures { (s t : js.Statement) → Makes statement_view one s → Makes statement_view two t → Makes (λ ss. statements_view ss.items) result (js.statement s (js.statement t js.no_statements)) }
{
    let mut statements = vec![in alloc; one?]?;
    statements.push(two?)?;
    Ok(statements)
}

/// `return e;`, and nothing else.
pub fn only_return(alloc: Global, value: Result<JsExpr, NoMemory>) -> Result<Vec<JsStmt>, NoMemory>
    ensures { (e : js.Expression) → Makes expression_view value e → Makes (λ ss. statements_view ss.items) result (js.statement (js.return_of e) js.no_statements) }
{
    one_statement(alloc, return_of(value))
}
