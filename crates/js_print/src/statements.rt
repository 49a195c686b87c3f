//! Statements.
ghost use Rattle.std.specs.Prelude.{◌≡◌, ◌+◌, IfOk, OnOk, codes};
ghost use Rattle.js_tree.specs.Written.{put, ◌▸◌, indent};
ghost use Rattle.js_tree.specs.Texts.{put_name, put_expression, put_statement, put_block, put_lines, put_cases};
ghost use Rattle.js_tree.specs.Views.{expression_view, statement_view, statements_view, cases_view};

use crate::expressions::{append_access, append_before, append_between};
use crate::writing::{append_indent, append_keys};
use js_tree::{JsExpr, JsStmt, SwitchCase};
use sj_names::{NoMemory, Text};
use text_print::append;

// The level inside a block of this level. Where there is none, the spaces in front of its lines would be more than memory holds.
fn level_inside(level: usize) -> Result<usize, NoMemory>
    ensures { IfOk result (λ inside. inside ≡ level + 1) }
{
    level.checked_add(1).ok_or(NoMemory)
}

// Appends `e;`
pub(crate) fn append_value(out: &mut Vec<u8>, value: &JsExpr) -> Result<(), NoMemory>
    ensures { OnOk result (out.new.items ≡ (put_expression (expression_view value.now) ▸ put (codes ";")) out.old.items) }
{
    append_before(out, value, ";")
}

// Appends `x = e;`
pub(crate) fn append_assignment(
    out: &mut Vec<u8>,
    name: &Text,
    value: &JsExpr,
) -> Result<(), NoMemory>
    ensures { OnOk result (out.new.items ≡ (put_name name.now ▸ put (codes " = ") ▸ put_expression (expression_view value.now) ▸ put (codes ";")) out.old.items) }
{
    append(out, name.as_str())?;
    append(out, " = ")?;
    append_value(out, value)
}

// Appends a word, a name and `;`
fn append_word_and_name(out: &mut Vec<u8>, word: &str, name: &Text) -> Result<(), NoMemory>
    ensures { OnOk result (out.new.items ≡ (put word.now ▸ put_name name.now ▸ put (codes ";")) out.old.items) }
{
    append(out, word)?;
    append(out, name.as_str())?;
    append(out, ";")
}

// Appends ` catch (x) `
fn append_catch(out: &mut Vec<u8>, name: &Text) -> Result<(), NoMemory>
    ensures { OnOk result (out.new.items ≡ (put (codes " catch (") ▸ put_name name.now ▸ put (codes ") ")) out.old.items) }
{
    append(out, " catch (")?;
    append(out, name.as_str())?;
    append(out, ") ")
}

// Appends the closing brace of a block or a `switch` that stands at this level.
fn append_close(out: &mut Vec<u8>, level: usize) -> Result<(), NoMemory>
    ensures { OnOk result (out.new.items ≡ (put (indent level) ▸ put (codes "}")) out.old.items) }
{
    append_indent(out, level)?;
    append(out, "}")
}

// Appends a statement that stands at this level, without the spaces in front of it and the line feed behind it.
#[cycle(statement)]
fn append_statement(out: &mut Vec<u8>, level: usize, statement: &JsStmt) -> Result<(), NoMemory>
    ensures { OnOk result (out.new.items ≡ put_statement level (statement_view statement.now) out.old.items) }
{
    match statement {
        JsStmt::Const { name, value } => {
            append(out, "const ")?;
            append_assignment(out, name, value)
        }
        JsStmt::Let { name, value } => {
            append(out, "let ")?;
            append_assignment(out, name, value)
        }
        JsStmt::Declare(name) => append_word_and_name(out, "let ", name),
        JsStmt::Expression(value) => append_value(out, value),
        JsStmt::Assign { name, value } => append_assignment(out, name, value),
        JsStmt::AssignProperty {
            object,
            property,
            value,
        } => {
            append_access(out, object, property)?;
            append(out, " = ")?;
            append_value(out, value)
        }
        JsStmt::AssignIndex {
            object,
            index,
            value,
        } => {
            append_before(out, object, "[")?;
            append_before(out, index, "] = ")?;
            append_value(out, value)
        }
        JsStmt::SuperCall => append(out, "super();"),
        JsStmt::Throw(value) => append_between(out, "throw ", value, ";"),
        JsStmt::Return(value) => append_between(out, "return ", value, ";"),
        JsStmt::Break => append(out, "break;"),
        JsStmt::BreakTo(label) => append_word_and_name(out, "break ", label),
        JsStmt::If { test, yes } => {
            append_between(out, "if (", test, ") ")?;
            append_block(out, level, yes)
        }
        JsStmt::IfElse { test, yes, no } => {
            append_between(out, "if (", test, ") ")?;
            append_block(out, level, yes)?;
            append(out, " else ")?;
            append_block(out, level, no)
        }
        JsStmt::While { test, body } => {
            append_between(out, "while (", test, ") ")?;
            append_block(out, level, body)
        }
        JsStmt::DoForever(body) => append_forever(out, level, body),
        JsStmt::Labeled { label, body } => {
            append(out, label.as_str())?;
            append(out, ": ")?;
            append_block(out, level, body)
        }
        JsStmt::TryCatch {
            body,
            name,
            handler,
        } => {
            append(out, "try ")?;
            append_block(out, level, body)?;
            append_catch(out, name)?;
            append_block(out, level, handler)
        }
        JsStmt::TryFinally { body, finalizer } => {
            append(out, "try ")?;
            append_block(out, level, body)?;
            append(out, " finally ")?;
            append_block(out, level, finalizer)
        }
        JsStmt::Switch {
            selector,
            cases,
            default,
        } => {
            let inside = level_inside(level)?;
            append_between(out, "switch (", selector, ") {\n")?;
            append_cases(out, inside, cases)?;
            append_default(out, inside, default)?;
            append_close(out, level)
        }
    }
}

// Appends a loop without an end.
#[cycle(statement)]
fn append_forever(out: &mut Vec<u8>, level: usize, body: &[JsStmt]) -> Result<(), NoMemory>
    ensures { OnOk result (out.new.items ≡ (put (codes "do ") ▸ put_block level (statements_view body.now) ▸ put (codes " while (true);")) out.old.items) }
{
    append(out, "do ")?;
    append_block(out, level, body)?;
    append(out, " while (true);")
}

// Appends the default of a `switch`, on lines of this level.
#[cycle(statement)]
fn append_default(out: &mut Vec<u8>, level: usize, default: &[JsStmt]) -> Result<(), NoMemory>
    ensures { OnOk result (out.new.items ≡ (put (indent level) ▸ put (codes "default: ") ▸ put_block level (statements_view default.now) ▸ put (codes "\n")) out.old.items) }
{
    append_indent(out, level)?;
    append(out, "default: ")?;
    append_block(out, level, default)?;
    append(out, "\n")
}

// Appends a block of this level.
#[cycle(statement)]
pub(crate) fn append_block(
    out: &mut Vec<u8>,
    level: usize,
    statements: &[JsStmt],
) -> Result<(), NoMemory>
    ensures { OnOk result (out.new.items ≡ put_block level (statements_view statements.now) out.old.items) }
{
    let inside = level_inside(level)?;
    append(out, "{\n")?;
    append_lines(out, inside, statements)?;
    append_close(out, level)
}

// Appends statements, each on its own line of this level.
#[cycle(statement)]
fn append_lines(out: &mut Vec<u8>, level: usize, statements: &[JsStmt]) -> Result<(), NoMemory>
    ensures { OnOk result (out.new.items ≡ put_lines level (statements_view statements.now) out.old.items) }
{
    for each in statements {
        append_indent(out, level)?;
        append_statement(out, level, each)?;
        append(out, "\n")?;
    }
    Ok(())
}

// Appends cases, each on lines of this level.
#[cycle(statement)]
fn append_cases(out: &mut Vec<u8>, level: usize, cases: &[SwitchCase]) -> Result<(), NoMemory>
    ensures { OnOk result (out.new.items ≡ put_cases level (cases_view cases.now) out.old.items) }
{
    for each in cases {
        append_indent(out, level)?;
        append_keys(out, level, each.keys.as_slice())?;
        append(out, " ")?;
        append_block(out, level, &each.body)?;
        append(out, "\n")?;
    }
    Ok(())
}
