//! Statements and blocks.
ghost use Rattle.std.specs.Prelude.{◌≡◌, ◌∷◌, ◌+◌, ◌<◌, ◌^◌, ◌==◌, codes, map};
ghost use Rattle.exact_place.specs.Reading.{after_at, lead_at, literal_at, map_at, value_at};
ghost use Rattle.js_read_spec.specs.Tokens.{name_at};
ghost use Rattle.js_read_spec.specs.declared.words.StatementHead.TheVariants as heads;
ghost use Rattle.js_tree.specs.Terms as terms;
ghost use Rattle.js_tree.specs.Views as views;
ghost use Rattle.js_tree.specs.Written.{indent};
ghost use Rattle.text_scan.specs.Gives.{Gives};
ghost use Rattle.js_read_scan.specs.Parts.{before_at};
ghost use Rattle.js_read_spec.specs.Statements as reading;

use crate::simple_statements::{
    Read, break_after, const_after, expression_end, forever, index_target_of, let_after,
    name_target_of, property_target_of, return_after, super_after, throw_after,
};
use js_read_expressions::{expression_after, expression_between, wordless_of};
use js_read_scan::{indentation, key_of, name_behind, next_is_word_start, statement_head_of};
use js_read_spec::StatementHead;
use js_tree::{JsExpr, JsStmt, JsTarget, SwitchCase};
use sj_names::{Items, Text};
use std::alloc::Global;
use text_scan::{Item, Stop, in_front, list_of, literal, next_is};

// `case K:`
#[tactic(auto, unfolding(js_read_spec::specs::Statements::case_key_at))]
fn case_key_of(bytes: &[u8]) -> Result<(i32, &[u8]), Stop>
    ensures { Gives (λ x. (x.0, x.1.now)) result (reading.case_key_at bytes.now) }
{
    let rest = literal(b"case ", bytes)?;
    let (key, rest) = key_of(rest)?;
    let rest = literal(b":", rest)?;
    Ok((key, rest))
}

// What follows a line feed and the indentation of this level.
fn next_line(level: usize, bytes: &[u8]) -> Result<&[u8], Stop>
    ensures { Gives (λ r. (tt, r.now)) result (literal_at (10 ∷ indent level) bytes.now) }
{
    let rest = literal(b"\n", bytes)?;
    indentation(level, rest)
}

// The line feed behind a line, and the indentation of the next one.
fn line_end(level: usize, bytes: &[u8]) -> Result<&[u8], Stop>
    ensures { Gives (λ r. (tt, r.now)) result (lead_at (codes "\n") (literal_at (indent level)) bytes.now) }
{
    let rest = literal(b"\n", bytes)?;
    indentation(level, rest)
}

// One more key of a case, on a line of this level.
#[derive(Drop)]
struct KeyItem(usize);

impl Item for KeyItem {
    ghost use Rattle.std.specs.Prelude.{ℤ, ◌==◌, ◌∷◌};
    ghost use Rattle.exact_place.specs.Reading.{lead_at};
    ghost use Rattle.js_tree.specs.Written.{indent};
    ghost use Rattle.js_read_spec.specs.Statements.{case_key_at};

    type Value = i32;

    ghost Seen = { ℤ };

    ghost seen = { λ k. k };

    ghost test = { λ s c. c == 10 };

    ghost reading = { λ s. lead_at (10 ∷ indent s.0) case_key_at };

    fn starts(&self, bytes: &[u8]) -> bool {
        next_is(b'\n', bytes)
    }

    fn read<'a>(&self, _alloc: Global, bytes: &'a [u8]) -> Result<(i32, &'a [u8]), Stop> {
        let rest = next_line(self.0, bytes)?;
        case_key_of(rest)
    }
}

// The keys of a case.
#[tactic(auto, unfolding(js_read_spec::specs::Statements::keys_at))]
fn keys_of<'a>(
    alloc: Global,
    fuel: usize,
    level: usize,
    bytes: &'a [u8],
) -> Result<(Vec<i32>, &'a [u8]), Stop>
    ensures { Gives (λ x. (x.0.items, x.1.now)) result (reading.keys_at (reading.statement_at fuel) fuel level bytes.now) }
{
    let (first, rest) = case_key_of(bytes)?;
    let (others, rest) = list_of(alloc, fuel, &KeyItem(level), rest)?;
    Ok((in_front(first, others)?, rest))
}

/// A statement of this level, read with this much fuel.
#[cycle(statement)]
#[tactic(auto, using(crate::proofs::StatementSteps::statement_none))]
pub fn statement_of<'a>(alloc: Global, fuel: usize, level: usize, bytes: &'a [u8]) -> Read<'a>
    requires { level < 2 ^ 63 }
    ensures { Gives (λ x. (views.statement_view x.0, x.1.now)) result (reading.statement_at fuel level bytes.now) }
{
    if fuel == 0 {
        return Err(Stop::Bad(bytes.len()));
    }
    if next_is_word_start(bytes) {
        let (head, rest) = statement_head_of(alloc, bytes)?;
        statement_after(alloc, fuel - 1, level, head, rest)
    } else {
        let (first, rest) = wordless_of(alloc, fuel, bytes)?;
        target_of(alloc, fuel - 1, level, first, rest)
    }
}

// A line of a block behind the indentation of the block, and that indentation behind it.
#[cycle(statement)]
#[tactic(auto, unfolding(js_read_spec::specs::Statements::line_at))]
fn line_of<'a>(alloc: Global, fuel: usize, level: usize, bytes: &'a [u8]) -> Read<'a>
    requires { level < 2 ^ 62 }
    ensures { Gives (λ x. (views.statement_view x.0, x.1.now)) result (reading.line_at (reading.statement_at fuel) fuel level bytes.now) }
{
    let rest = literal(b"  ", bytes)?;
    let (statement, rest) = statement_of(alloc, fuel, level + 1, rest)?;
    let rest = line_end(level, rest)?;
    Ok((statement, rest))
}

#[cycle(statement)]
#[tactic(auto, unfolding(js_read_spec::specs::Statements::lines_at))]
fn lines_of<'a>(
    alloc: Global,
    fuel: usize,
    level: usize,
    bytes: &'a [u8],
) -> Result<(Vec<JsStmt>, &'a [u8]), Stop>
    requires { level < 2 ^ 62 }
    ensures { Gives (λ x. (map views.statement_view x.0.items, x.1.now)) result (reading.lines_at (reading.statement_at fuel) fuel level bytes.now) }
{
    let mut statements = Vec::new(alloc);
    let mut rest = bytes;
    for _ in 0..fuel {
        if !next_is(b' ', rest) {
            return Ok((statements, rest));
        }
        let (statement, after) = line_of(alloc, fuel, level, rest)?;
        statements.push(statement)?;
        rest = after;
    }
    Err(Stop::Bad(rest.len()))
}

/// `{`, the lines, and `}`.
#[cycle(statement)]
#[tactic(auto, unfolding(js_read_spec::specs::Statements::block_at))]
pub fn block_of<'a>(
    alloc: Global,
    fuel: usize,
    level: usize,
    bytes: &'a [u8],
) -> Result<(Vec<JsStmt>, &'a [u8]), Stop>
    requires { level < 2 ^ 63 }
    ensures { Gives (λ x. (views.statements_view x.0.items, x.1.now)) result (reading.block_at (reading.statement_at fuel) fuel level bytes.now) }
{
    let rest = literal(b"{\n", bytes)?;
    let rest = indentation(level, rest)?;
    let (statements, rest) = lines_of(alloc, fuel, level, rest)?;
    let rest = literal(b"}", rest)?;
    Ok((statements, rest))
}

// A block of this level behind these bytes.
#[cycle(statement)]
fn block_behind<'a>(
    alloc: Global,
    fuel: usize,
    level: usize,
    lead: &[u8],
    bytes: &'a [u8],
) -> Result<(Vec<JsStmt>, &'a [u8]), Stop>
    requires { level < 2 ^ 63 }
    ensures { Gives (λ x. (views.statements_view x.0.items, x.1.now)) result (lead_at lead.now (reading.block_at (reading.statement_at fuel) fuel level) bytes.now) }
{
    let rest = literal(lead, bytes)?;
    block_of(alloc, fuel, level, rest)
}

#[cycle(statement)]
#[tactic(auto, unfolding(js_read_spec::specs::Statements::case_at))]
fn case_of<'a>(
    alloc: Global,
    fuel: usize,
    level: usize,
    bytes: &'a [u8],
) -> Result<(SwitchCase, &'a [u8]), Stop>
    requires { level < 2 ^ 62 }
    ensures { Gives (λ x. (views.case_view x.0, x.1.now)) result (reading.case_at (reading.statement_at fuel) fuel level bytes.now) }
{
    let (keys, rest) = keys_of(alloc, fuel, level, bytes)?;
    let (body, rest) = block_behind(alloc, fuel, level, b" ", rest)?;
    let rest = line_end(level, rest)?;
    let keys = Items::from_vec(keys);
    Ok((SwitchCase { keys, body }, rest))
}

#[cycle(statement)]
#[tactic(auto, unfolding(js_read_spec::specs::Statements::cases_at))]
fn cases_of<'a>(
    alloc: Global,
    fuel: usize,
    level: usize,
    bytes: &'a [u8],
) -> Result<(Vec<SwitchCase>, &'a [u8]), Stop>
    requires { level < 2 ^ 62 }
    ensures { Gives (λ x. (map views.case_view x.0.items, x.1.now)) result (reading.cases_at (reading.statement_at fuel) fuel level bytes.now) }
{
    let mut cases = Vec::new(alloc);
    let mut rest = bytes;
    for _ in 0..fuel {
        if !next_is(b'c', rest) {
            return Ok((cases, rest));
        }
        let (case, after) = case_of(alloc, fuel, level, rest)?;
        cases.push(case)?;
        rest = after;
    }
    Err(Stop::Bad(rest.len()))
}

// The default of a `switch`, and the line feed and the indentation behind it.
#[cycle(statement)]
fn default_of<'a>(
    alloc: Global,
    fuel: usize,
    level: usize,
    bytes: &'a [u8],
) -> Result<(Vec<JsStmt>, &'a [u8]), Stop>
    requires { level < 2 ^ 62 }
    ensures { Gives (λ x. (views.statements_view x.0.items, x.1.now)) result (lead_at (codes "default: ") (after_at (reading.block_at (reading.statement_at fuel) fuel (level + 1)) (λ ss. lead_at (codes "\n") (lead_at (indent level) (value_at ss)))) bytes.now) }
{
    let (default, rest) = block_behind(alloc, fuel, level + 1, b"default: ", bytes)?;
    let rest = line_end(level, rest)?;
    Ok((default, rest))
}

// The cases and the default of a `switch`, and its closing brace.
#[cycle(statement)]
#[tactic(auto, unfolding(js_read_spec::specs::Statements::switch_at))]
fn switch_of<'a>(
    alloc: Global,
    fuel: usize,
    level: usize,
    selector: JsExpr,
    bytes: &'a [u8],
) -> Read<'a>
    requires { level < 2 ^ 63 }
    ensures { Gives (λ x. (views.statement_view x.0, x.1.now)) result (reading.switch_at (reading.statement_at fuel) fuel level (views.expression_view selector) bytes.now) }
{
    let rest = indentation(level + 1, bytes)?;
    let (cases, rest) = cases_of(alloc, fuel, level + 1, rest)?;
    let (default, rest) = default_of(alloc, fuel, level, rest)?;
    let rest = literal(b"}", rest)?;
    Ok((
        JsStmt::Switch {
            selector,
            cases,
            default,
        },
        rest,
    ))
}

// What may stand behind `if (e) ` and its block.
#[cycle(statement)]
#[tactic(auto, unfolding(js_read_spec::specs::Statements::else_at))]
fn else_of<'a>(
    alloc: Global,
    fuel: usize,
    level: usize,
    test: JsExpr,
    yes: Vec<JsStmt>,
    bytes: &'a [u8],
) -> Read<'a>
    requires { level < 2 ^ 63 }
    ensures { Gives (λ x. (views.statement_view x.0, x.1.now)) result (reading.else_at (reading.statement_at fuel) fuel level (views.expression_view test) (views.statements_view yes.items) bytes.now) }
{
    if next_is(b' ', bytes) {
        let (no, rest) = block_behind(alloc, fuel, level, b" else ", bytes)?;
        Ok((JsStmt::IfElse { test, yes, no }, rest))
    } else {
        Ok((JsStmt::If { test, yes }, bytes))
    }
}

// A name and a block behind `catch`.
#[cycle(statement)]
fn catch_of<'a>(
    alloc: Global,
    fuel: usize,
    level: usize,
    body: Vec<JsStmt>,
    bytes: &'a [u8],
) -> Read<'a>
    requires { level < 2 ^ 63 }
    ensures { Gives (λ x. (views.statement_view x.0, x.1.now)) result ((lead_at (codes "catch (") (after_at name_at (λ x. lead_at (codes ") ") (map_at (λ ts. terms.try_catch (views.statements_view body.items) x ts) (reading.block_at (reading.statement_at fuel) fuel level))))) bytes.now) }
{
    let (name, rest) = name_behind(alloc, b"catch (", bytes)?;
    let (handler, rest) = block_behind(alloc, fuel, level, b") ", rest)?;
    Ok((
        JsStmt::TryCatch {
            body,
            name,
            handler,
        },
        rest,
    ))
}

// What stands behind `try ` and its block.
#[cycle(statement)]
#[tactic(auto, unfolding(js_read_spec::specs::Statements::handler_at))]
fn handler_of<'a>(
    alloc: Global,
    fuel: usize,
    level: usize,
    body: Vec<JsStmt>,
    bytes: &'a [u8],
) -> Read<'a>
    requires { level < 2 ^ 63 }
    ensures { Gives (λ x. (views.statement_view x.0, x.1.now)) result ((reading.handler_at (reading.statement_at fuel) fuel level (views.statements_view body.items)) bytes.now) }
{
    let rest = literal(b" ", bytes)?;
    if next_is(b'c', rest) {
        catch_of(alloc, fuel, level, body, rest)
    } else {
        let (finalizer, rest) = block_behind(alloc, fuel, level, b"finally ", rest)?;
        Ok((JsStmt::TryFinally { body, finalizer }, rest))
    }
}

// The block behind a label.
#[cycle(statement)]
fn labeled_of<'a>(
    alloc: Global,
    fuel: usize,
    level: usize,
    label: Text,
    bytes: &'a [u8],
) -> Read<'a>
    requires { level < 2 ^ 63 }
    ensures { Gives (λ x. (views.statement_view x.0, x.1.now)) result ((lead_at (codes ": ") (map_at (λ ss. terms.labeled_of label ss) (reading.block_at (reading.statement_at fuel) fuel level))) bytes.now) }
{
    let (body, rest) = block_behind(alloc, fuel, level, b": ", bytes)?;
    Ok((JsStmt::Labeled { label, body }, rest))
}

// What stands behind an expression that stands first.
#[cycle(statement)]
#[tactic(auto, unfolding(js_read_spec::specs::Statements::target_at))]
fn target_of<'a>(
    alloc: Global,
    fuel: usize,
    level: usize,
    first: JsExpr,
    bytes: &'a [u8],
) -> Read<'a>
    requires { level < 2 ^ 63 }
    ensures { Gives (λ x. (views.statement_view x.0, x.1.now)) result ((reading.target_at (reading.statement_at fuel) fuel level (views.expression_view first)) bytes.now) }
{
    match first.into_target() {
        JsTarget::Name(name) => {
            if next_is(b':', bytes) {
                labeled_of(alloc, fuel, level, name, bytes)
            } else {
                name_target_of(alloc, fuel, name, bytes)
            }
        }
        JsTarget::Property { object, property } => {
            property_target_of(alloc, fuel, object, property, bytes)
        }
        JsTarget::Index { object, index } => index_target_of(alloc, fuel, object, index, bytes),
        JsTarget::Other(other) => expression_end(other, bytes),
    }
}

// What stands behind `if`.
#[cycle(statement)]
#[tactic(auto, unfolding(js_read_spec::specs::Statements::statement_after_at, js_read_scan::specs::Parts::before_at))]
fn if_after<'a>(alloc: Global, fuel: usize, level: usize, bytes: &'a [u8]) -> Read<'a>
    requires { level < 2 ^ 63 }
    ensures { Gives (λ x. (views.statement_view x.0, x.1.now)) result ((reading.statement_after_at (reading.statement_at fuel) fuel level heads.If) bytes.now) }
{
    let (test, rest) = expression_between(alloc, fuel, b" (", b") ", bytes)?;
    let (yes, rest) = block_of(alloc, fuel, level, rest)?;
    else_of(alloc, fuel, level, test, yes, rest)
}

// What stands behind `while`.
#[cycle(statement)]
#[tactic(auto, unfolding(js_read_spec::specs::Statements::statement_after_at, js_read_scan::specs::Parts::before_at))]
fn while_after<'a>(alloc: Global, fuel: usize, level: usize, bytes: &'a [u8]) -> Read<'a>
    requires { level < 2 ^ 63 }
    ensures { Gives (λ x. (views.statement_view x.0, x.1.now)) result ((reading.statement_after_at (reading.statement_at fuel) fuel level heads.While) bytes.now) }
{
    let (test, rest) = expression_between(alloc, fuel, b" (", b") ", bytes)?;
    let (body, rest) = block_of(alloc, fuel, level, rest)?;
    Ok((JsStmt::While { test, body }, rest))
}

// What stands behind `do`.
#[cycle(statement)]
#[tactic(auto, unfolding(js_read_spec::specs::Statements::statement_after_at))]
fn do_after<'a>(alloc: Global, fuel: usize, level: usize, bytes: &'a [u8]) -> Read<'a>
    requires { level < 2 ^ 63 }
    ensures { Gives (λ x. (views.statement_view x.0, x.1.now)) result ((reading.statement_after_at (reading.statement_at fuel) fuel level heads.Do) bytes.now) }
{
    let (body, rest) = block_behind(alloc, fuel, level, b" ", bytes)?;
    let rest = literal(b" while (true);", rest)?;
    Ok((forever(body), rest))
}

// What stands behind `try`.
#[cycle(statement)]
#[tactic(auto, unfolding(js_read_spec::specs::Statements::statement_after_at))]
fn try_after<'a>(alloc: Global, fuel: usize, level: usize, bytes: &'a [u8]) -> Read<'a>
    requires { level < 2 ^ 63 }
    ensures { Gives (λ x. (views.statement_view x.0, x.1.now)) result ((reading.statement_after_at (reading.statement_at fuel) fuel level heads.Try) bytes.now) }
{
    let (body, rest) = block_behind(alloc, fuel, level, b" ", bytes)?;
    handler_of(alloc, fuel, level, body, rest)
}

// What stands behind `switch`.
#[cycle(statement)]
#[tactic(auto, unfolding(js_read_spec::specs::Statements::statement_after_at, js_read_scan::specs::Parts::before_at))]
fn switch_after<'a>(alloc: Global, fuel: usize, level: usize, bytes: &'a [u8]) -> Read<'a>
    requires { level < 2 ^ 63 }
    ensures { Gives (λ x. (views.statement_view x.0, x.1.now)) result ((reading.statement_after_at (reading.statement_at fuel) fuel level heads.Switch) bytes.now) }
{
    let (selector, rest) = expression_between(alloc, fuel, b" (", b") {\n", bytes)?;
    switch_of(alloc, fuel, level, selector, rest)
}

// A statement behind its first word.
#[cycle(statement)]
#[tactic(auto, unfolding(js_read_spec::specs::Statements::statement_after_at))]
fn statement_after<'a>(
    alloc: Global,
    fuel: usize,
    level: usize,
    head: StatementHead,
    bytes: &'a [u8],
) -> Read<'a>
    requires { level < 2 ^ 63 }
    ensures { Gives (λ x. (views.statement_view x.0, x.1.now)) result ((reading.statement_after_at (reading.statement_at fuel) fuel level head) bytes.now) }
{
    match head {
        StatementHead::Const => const_after(alloc, fuel, bytes),
        StatementHead::Let => let_after(alloc, fuel, bytes),
        StatementHead::Super => super_after(bytes),
        StatementHead::Throw => throw_after(alloc, fuel, bytes),
        StatementHead::Return => return_after(alloc, fuel, bytes),
        StatementHead::Break => break_after(alloc, bytes),
        StatementHead::If => if_after(alloc, fuel, level, bytes),
        StatementHead::While => while_after(alloc, fuel, level, bytes),
        StatementHead::Do => do_after(alloc, fuel, level, bytes),
        StatementHead::Try => try_after(alloc, fuel, level, bytes),
        StatementHead::Switch => switch_after(alloc, fuel, level, bytes),
        StatementHead::Expression(head) => {
            let (first, rest) = expression_after(alloc, fuel, head, bytes)?;
            target_of(alloc, fuel, level, first, rest)
        }
    }
}
