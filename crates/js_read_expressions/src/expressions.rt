//! Expressions.
ghost use Rattle.std.specs.Prelude.{◌≡◌, ◌==◌, codes, map};
ghost use Rattle.exact_place.specs.Reading.{after_at, either_at, lead_at, literal_at, map_at, value_at};
ghost use Rattle.js_tree.specs.Views.{expression_view, expressions_view};
ghost use Rattle.text_scan.specs.Gives.{Gives};
ghost use Rattle.js_read_scan.specs.Parts.{before_at};
ghost use Rattle.js_read_spec.specs.Expressions as reading;
ghost use Rattle.js_read_spec.specs.Tokens.{new_head_at, property_at};
ghost use Rattle.js_read_spec.specs.declared.words.Infix.TheVariants as infixes;

use js_read_scan::{
    below_of, head_of, infix_of, new_head_of, next_is_suffix, next_is_word_start, number_of,
    parenthesis_head_of, property_of, string_of,
};
use js_read_spec::{Head, Infix, NewHead, ParenthesisHead};
use js_tree::{BinaryOperator, HostFunction, HostOperation, JsExpr, UnaryOperator};
use std::alloc::Global;
use text_scan::{Stop, in_front, literal, next_is, next_is_digit};

// What a reader of expressions gives: the expression and the rest.
type Read<'a> = Result<(JsExpr, &'a [u8]), Stop>;

/// An expression, read with this much fuel.
#[cycle(expression)]
#[tactic(auto, using(crate::proofs::ExpressionSteps::levels))]
pub fn expression_of<'a>(alloc: Global, fuel: usize, bytes: &'a [u8]) -> Read<'a>
    ensures { Gives (λ x. (expression_view x.0, x.1.now)) result (reading.expression_at fuel bytes.now) }
{
    if fuel == 0 {
        return Err(Stop::Bad(bytes.len()));
    }
    if next_is_word_start(bytes) {
        let (head, rest) = head_of(alloc, bytes)?;
        expression_after(alloc, fuel - 1, head, rest)
    } else {
        wordless_of(alloc, fuel, bytes)
    }
}

/// An expression that begins with no word.
#[cycle(expression)]
#[tactic(auto, using(crate::proofs::ExpressionSteps::levels))]
pub fn wordless_of<'a>(alloc: Global, fuel: usize, bytes: &'a [u8]) -> Read<'a>
    ensures { Gives (λ x. (expression_view x.0, x.1.now)) result (reading.wordless_at fuel bytes.now) }
{
    if fuel == 0 {
        return Err(Stop::Bad(bytes.len()));
    }
    if next_is_digit(bytes) {
        number_of(bytes)
    } else {
        let (object, rest) = bracketed_of(alloc, fuel - 1, bytes)?;
        suffixes_of(alloc, fuel - 1, object, rest)
    }
}

/// An expression behind its first word.
#[cycle(expression)]
#[tactic(auto, unfolding(js_read_spec::specs::Expressions::expression_after_at))]
pub fn expression_after<'a>(alloc: Global, fuel: usize, head: Head, bytes: &'a [u8]) -> Read<'a>
    ensures { Gives (λ x. (expression_view x.0, x.1.now)) result (reading.expression_after_at (reading.expression_at fuel) fuel head bytes.now) }
{
    let (object, rest) = primary_of(alloc, fuel, head, bytes)?;
    suffixes_of(alloc, fuel, object, rest)
}

// An expression in a box, and these bytes behind it.
#[cycle(expression)]
#[tactic(auto, unfolding(js_read_scan::specs::Parts::before_at))]
fn boxed_before<'a>(
    alloc: Global,
    fuel: usize,
    end: &[u8],
    bytes: &'a [u8],
) -> Result<(Box<JsExpr>, &'a [u8]), Stop>
    ensures { Gives (λ x. (expression_view x.0.value, x.1.now)) result (before_at end.now (reading.expression_at fuel) bytes.now) }
{
    let (expression, rest) = expression_of(alloc, fuel, bytes)?;
    let rest = literal(end, rest)?;
    Ok((Box::new(alloc, expression)?, rest))
}

// An expression in a box, with these bytes in front of it and behind it.
#[cycle(expression)]
fn boxed_between<'a>(
    alloc: Global,
    fuel: usize,
    lead: &[u8],
    end: &[u8],
    bytes: &'a [u8],
) -> Result<(Box<JsExpr>, &'a [u8]), Stop>
    ensures { Gives (λ x. (expression_view x.0.value, x.1.now)) result (lead_at lead.now (before_at end.now (reading.expression_at fuel)) bytes.now) }
{
    let rest = literal(lead, bytes)?;
    boxed_before(alloc, fuel, end, rest)
}

// A comma, a space and an expression.
#[cycle(expression)]
fn next_of<'a>(alloc: Global, fuel: usize, bytes: &'a [u8]) -> Read<'a>
    ensures { Gives (λ x. (expression_view x.0, x.1.now)) result (lead_at (codes ", ") (reading.expression_at fuel) bytes.now) }
{
    let rest = literal(b", ", bytes)?;
    expression_of(alloc, fuel, rest)
}

// The second and later expressions of a list.
#[cycle(expression)]
#[tactic(auto, unfolding(js_read_spec::specs::Expressions::more_at))]
fn more_of<'a>(alloc: Global, fuel: usize, bytes: &'a [u8]) -> Result<(Vec<JsExpr>, &'a [u8]), Stop>
    ensures { Gives (λ x. (map expression_view x.0.items, x.1.now)) result (reading.more_at (reading.expression_at fuel) fuel bytes.now) }
{
    let mut expressions = Vec::new(alloc);
    let mut rest = bytes;
    for _ in 0..fuel {
        if !next_is(b',', rest) {
            return Ok((expressions, rest));
        }
        let (expression, after) = next_of(alloc, fuel, rest)?;
        expressions.push(expression)?;
        rest = after;
    }
    Err(Stop::Bad(rest.len()))
}

// The expressions of a list, and the byte that closes it.
#[cycle(expression)]
#[tactic(auto, unfolding(js_read_spec::specs::Expressions::expressions_at))]
fn expressions_of<'a>(
    alloc: Global,
    fuel: usize,
    close: u8,
    bytes: &'a [u8],
) -> Result<(Vec<JsExpr>, &'a [u8]), Stop>
    ensures { Gives (λ x. (expressions_view x.0.items, x.1.now)) result (reading.expressions_at (reading.expression_at fuel) fuel close bytes.now) }
{
    if next_is(close, bytes) {
        let rest = literal(&[close], bytes)?;
        Ok((Vec::new(alloc), rest))
    } else {
        let (first, rest) = expression_of(alloc, fuel, bytes)?;
        let (others, rest) = more_of(alloc, fuel, rest)?;
        let rest = literal(&[close], rest)?;
        Ok((in_front(first, others)?, rest))
    }
}

// The arguments of a call in their parentheses.
#[cycle(expression)]
fn arguments_of<'a>(
    alloc: Global,
    fuel: usize,
    bytes: &'a [u8],
) -> Result<(Vec<JsExpr>, &'a [u8]), Stop>
    ensures { Gives (λ x. (expressions_view x.0.items, x.1.now)) result (lead_at (codes "(") (reading.expressions_at (reading.expression_at fuel) fuel 41) bytes.now) }
{
    let rest = literal(b"(", bytes)?;
    expressions_of(alloc, fuel, b')', rest)
}

// A fixed function of one argument behind its first word: these bytes, the argument and the closing parenthesis.
#[cycle(expression)]
#[tactic(auto, using(crate::proofs::BetweenSteps::hosts))]
fn host_of<'a>(
    alloc: Global,
    fuel: usize,
    lead: &[u8],
    function: HostFunction,
    bytes: &'a [u8],
) -> Read<'a>
    ensures { Gives (λ x. (expression_view x.0, x.1.now)) result (lead_at lead.now (reading.host_at (reading.expression_at fuel) fuel function) bytes.now) }
{
    let (argument, rest) = boxed_between(alloc, fuel, lead, b")", bytes)?;
    Ok((JsExpr::Host { function, argument }, rest))
}

// A fixed function of two arguments behind its first word: these bytes, the arguments and the closing parenthesis.
#[cycle(expression)]
#[tactic(auto, using(crate::proofs::BetweenSteps::hosts_of_two))]
fn host_of_two<'a>(
    alloc: Global,
    fuel: usize,
    lead: &[u8],
    function: HostOperation,
    bytes: &'a [u8],
) -> Read<'a>
    ensures { Gives (λ x. (expression_view x.0, x.1.now)) result (lead_at lead.now (reading.host_of_two_at (reading.expression_at fuel) fuel function) bytes.now) }
{
    let (first, rest) = boxed_between(alloc, fuel, lead, b", ", bytes)?;
    let (second, rest) = boxed_before(alloc, fuel, b")", rest)?;
    Ok((
        JsExpr::HostOfTwo {
            function,
            first,
            second,
        },
        rest,
    ))
}

// What stands behind `new` and a word.
#[cycle(expression)]
#[tactic(auto, using(crate::proofs::BetweenSteps::arrays), unfolding(js_read_spec::specs::Expressions::new_after_at))]
fn new_after<'a>(alloc: Global, fuel: usize, head: NewHead, bytes: &'a [u8]) -> Read<'a>
    ensures { Gives (λ x. (expression_view x.0, x.1.now)) result (reading.new_after_at (reading.expression_at fuel) fuel head bytes.now) }
{
    match head {
        NewHead::Name(class) => {
            let (arguments, rest) = arguments_of(alloc, fuel, bytes)?;
            Ok((JsExpr::New { class, arguments }, rest))
        }
        NewHead::Array => {
            let (length, rest) = boxed_between(alloc, fuel, b"(", b")", bytes)?;
            Ok((JsExpr::NewArray(length), rest))
        }
    }
}

// What stands behind `new`.
#[cycle(expression)]
fn new_of<'a>(alloc: Global, fuel: usize, bytes: &'a [u8]) -> Read<'a>
    ensures { Gives (λ x. (expression_view x.0, x.1.now)) result (lead_at (codes " ") (after_at new_head_at (reading.new_after_at (reading.expression_at fuel) fuel)) bytes.now) }
{
    let rest = literal(b" ", bytes)?;
    let (head, rest) = new_head_of(alloc, rest)?;
    new_after(alloc, fuel, head, rest)
}

// What stands behind `BigInt`.
#[cycle(expression)]
#[tactic(auto, unfolding(js_read_spec::specs::Expressions::big_after_at))]
fn big_after<'a>(alloc: Global, fuel: usize, bytes: &'a [u8]) -> Read<'a>
    ensures { Gives (λ x. (expression_view x.0, x.1.now)) result (reading.big_after_at (reading.expression_at fuel) fuel bytes.now) }
{
    if next_is(b'(', bytes) {
        return host_of(alloc, fuel, b"(", HostFunction::BigInt, bytes);
    }
    let rest = literal(b".as", bytes)?;
    if next_is(b'I', rest) {
        host_of_two(alloc, fuel, b"IntN(", HostOperation::BigIntAsIntN, rest)
    } else {
        host_of_two(alloc, fuel, b"UintN(", HostOperation::BigIntAsUintN, rest)
    }
}

// An expression behind its first word, up to a suffix.
#[cycle(expression)]
#[tactic(auto, unfolding(js_read_spec::specs::Expressions::primary_at))]
fn primary_of<'a>(alloc: Global, fuel: usize, head: Head, bytes: &'a [u8]) -> Read<'a>
    ensures { Gives (λ x. (expression_view x.0, x.1.now)) result (reading.primary_at (reading.expression_at fuel) fuel head bytes.now) }
{
    match head {
        Head::Name(name) => {
            if next_is(b'(', bytes) {
                let (arguments, rest) = arguments_of(alloc, fuel, bytes)?;
                Ok((
                    JsExpr::Call {
                        function: name,
                        arguments,
                    },
                    rest,
                ))
            } else {
                Ok((JsExpr::Name(name), bytes))
            }
        }
        Head::Null => Ok((JsExpr::Null, bytes)),
        Head::True => Ok((JsExpr::Boolean(true), bytes)),
        Head::False => Ok((JsExpr::Boolean(false), bytes)),
        Head::This => Ok((JsExpr::This, bytes)),
        Head::New => new_of(alloc, fuel, bytes),
        Head::BigInt => big_after(alloc, fuel, bytes),
        Head::Number => host_of(alloc, fuel, b"(", HostFunction::Number, bytes),
        Head::Math => host_of_two(alloc, fuel, b".imul(", HostOperation::MathImul, bytes),
        Head::String => {
            let function = HostFunction::StringFromCharCode;
            host_of(alloc, fuel, b".fromCharCode(", function, bytes)
        }
        Head::Console => host_of(alloc, fuel, b".log(", HostFunction::ConsoleLog, bytes),
    }
}

// `.p` or `.p(..)` behind an expression.
#[cycle(expression)]
fn named_suffix_of<'a>(alloc: Global, fuel: usize, object: Box<JsExpr>, bytes: &'a [u8]) -> Read<'a>
    ensures { Gives (λ x. (expression_view x.0, x.1.now)) result (map_at (λ s. reading.with_suffix s (expression_view object.value)) (lead_at (codes ".") (after_at property_at (λ p. either_at (λ c. c == 40) (lead_at (codes "(") (map_at (λ es. reading.method_suffix p es) (reading.expressions_at (reading.expression_at fuel) fuel 41))) (value_at (reading.property_suffix p))))) bytes.now) }
{
    let rest = literal(b".", bytes)?;
    let (property, rest) = property_of(alloc, rest)?;
    if next_is(b'(', rest) {
        let (arguments, rest) = arguments_of(alloc, fuel, rest)?;
        Ok((
            JsExpr::MethodCall {
                object,
                property,
                arguments,
            },
            rest,
        ))
    } else {
        Ok((JsExpr::Property { object, property }, rest))
    }
}

// `[e]` behind an expression.
#[cycle(expression)]
#[tactic(auto, using(crate::proofs::BetweenSteps::indices))]
fn index_suffix_of<'a>(alloc: Global, fuel: usize, object: Box<JsExpr>, bytes: &'a [u8]) -> Read<'a>
    ensures { Gives (λ x. (expression_view x.0, x.1.now)) result (map_at (λ s. reading.with_suffix s (expression_view object.value)) (lead_at (codes "[") (after_at (reading.expression_at fuel) (λ i. map_at (λ u. reading.index_suffix i) (literal_at (codes "]"))))) bytes.now) }
{
    let (index, rest) = boxed_between(alloc, fuel, b"[", b"]", bytes)?;
    Ok((JsExpr::Index { object, index }, rest))
}

// One suffix behind an expression, and the expression that it makes.
#[cycle(expression)]
#[tactic(auto, unfolding(js_read_spec::specs::Expressions::suffix_at))]
fn suffix_of<'a>(alloc: Global, fuel: usize, object: JsExpr, bytes: &'a [u8]) -> Read<'a>
    ensures { Gives (λ x. (expression_view x.0, x.1.now)) result (map_at (λ s. reading.with_suffix s (expression_view object)) (reading.suffix_at (reading.expression_at fuel) fuel) bytes.now) }
{
    let object = Box::new(alloc, object)?;
    if next_is(b'.', bytes) {
        named_suffix_of(alloc, fuel, object, bytes)
    } else {
        index_suffix_of(alloc, fuel, object, bytes)
    }
}

// The suffixes behind an expression, and the expression that they make.
#[cycle(expression)]
#[tactic(auto, unfolding(js_read_spec::specs::Expressions::suffixes_at))]
fn suffixes_of<'a>(alloc: Global, fuel: usize, first: JsExpr, bytes: &'a [u8]) -> Read<'a>
    ensures { Gives (λ x. (expression_view x.0, x.1.now)) result (reading.suffixes_at (reading.expression_at fuel) fuel (expression_view first) bytes.now) }
{
    let mut object = first;
    let mut rest = bytes;
    for _ in 0..fuel {
        if !next_is_suffix(rest) {
            return Ok((object, rest));
        }
        let (whole, after) = suffix_of(alloc, fuel, object, rest)?;
        object = whole;
        rest = after;
    }
    Err(Stop::Bad(rest.len()))
}

// What stands behind `(`, an expression and ` ?`.
#[cycle(expression)]
#[tactic(auto, using(crate::proofs::BetweenSteps::choices))]
fn choice_of<'a>(alloc: Global, fuel: usize, test: JsExpr, bytes: &'a [u8]) -> Read<'a>
    ensures { Gives (λ x. (expression_view x.0, x.1.now)) result (reading.infix_after_at (reading.expression_at fuel) fuel (expression_view test) infixes.Question bytes.now) }
{
    let test = Box::new(alloc, test)?;
    let (yes, rest) = boxed_between(alloc, fuel, b" ", b" : ", bytes)?;
    let (no, rest) = boxed_before(alloc, fuel, b")", rest)?;
    Ok((JsExpr::Conditional { test, yes, no }, rest))
}

// What stands behind `(`, an expression and an operator or `?`.
#[cycle(expression)]
#[tactic(auto, using(crate::proofs::BetweenSteps::operators))]
fn infix_after<'a>(
    alloc: Global,
    fuel: usize,
    first: JsExpr,
    between: Infix,
    bytes: &'a [u8],
) -> Read<'a>
    ensures { Gives (λ x. (expression_view x.0, x.1.now)) result (reading.infix_after_at (reading.expression_at fuel) fuel (expression_view first) between bytes.now) }
{
    match between {
        Infix::Operator(operator) => {
            let left = Box::new(alloc, first)?;
            let (right, rest) = boxed_between(alloc, fuel, b" ", b")", bytes)?;
            Ok((
                JsExpr::Binary {
                    left,
                    operator,
                    right,
                },
                rest,
            ))
        }
        Infix::Question => choice_of(alloc, fuel, first, bytes),
    }
}

// What stands behind `(` and an expression.
#[cycle(expression)]
#[tactic(auto, unfolding(js_read_spec::specs::Expressions::tail_at))]
fn tail_of<'a>(alloc: Global, fuel: usize, first: JsExpr, bytes: &'a [u8]) -> Read<'a>
    ensures { Gives (λ x. (expression_view x.0, x.1.now)) result (reading.tail_at (reading.expression_at fuel) fuel (expression_view first) bytes.now) }
{
    let rest = literal(b" ", bytes)?;
    let (between, rest) = infix_of(rest)?;
    infix_after(alloc, fuel, first, between, rest)
}

// What stands behind `(`: an operator, written so, its operand and the closing parenthesis.
#[cycle(expression)]
#[tactic(auto, using(crate::proofs::BetweenSteps::unaries))]
fn unary_of<'a>(
    alloc: Global,
    fuel: usize,
    lead: &[u8],
    operator: UnaryOperator,
    bytes: &'a [u8],
) -> Read<'a>
    ensures { Gives (λ x. (expression_view x.0, x.1.now)) result (lead_at lead.now (reading.unary_at (reading.expression_at fuel) fuel operator) bytes.now) }
{
    let (operand, rest) = boxed_between(alloc, fuel, lead, b")", bytes)?;
    Ok((JsExpr::Unary { operator, operand }, rest))
}

// What stands behind `(` and a word.
#[cycle(expression)]
#[tactic(auto, unfolding(js_read_spec::specs::Expressions::parenthesis_after_at))]
fn parenthesis_after<'a>(
    alloc: Global,
    fuel: usize,
    head: ParenthesisHead,
    bytes: &'a [u8],
) -> Read<'a>
    ensures { Gives (λ x. (expression_view x.0, x.1.now)) result (reading.parenthesis_after_at (reading.expression_at fuel) fuel head bytes.now) }
{
    match head {
        ParenthesisHead::Void => {
            let rest = literal(b" 0)", bytes)?;
            Ok((JsExpr::Undefined, rest))
        }
        ParenthesisHead::TypeOf => unary_of(alloc, fuel, b" ", UnaryOperator::TypeOf, bytes),
        ParenthesisHead::Expression(head) => {
            let (first, rest) = expression_after(alloc, fuel, head, bytes)?;
            tail_of(alloc, fuel, first, rest)
        }
    }
}

// What stands behind `(`.
#[cycle(expression)]
#[tactic(auto, unfolding(js_read_spec::specs::Expressions::parenthesis_at))]
fn parenthesis_of<'a>(alloc: Global, fuel: usize, bytes: &'a [u8]) -> Read<'a>
    ensures { Gives (λ x. (expression_view x.0, x.1.now)) result (reading.parenthesis_at (reading.expression_at fuel) fuel (reading.wordless_at fuel) bytes.now) }
{
    if next_is(b'!', bytes) {
        unary_of(alloc, fuel, b"!", UnaryOperator::Not, bytes)
    } else if next_is(b'-', bytes) {
        let rest = literal(b"-", bytes)?;
        below_of(rest)
    } else if next_is_word_start(bytes) {
        let (head, rest) = parenthesis_head_of(alloc, bytes)?;
        parenthesis_after(alloc, fuel, head, rest)
    } else {
        let (first, rest) = wordless_of(alloc, fuel, bytes)?;
        tail_of(alloc, fuel, first, rest)
    }
}

// A string, a list, or what stands in parentheses.
#[cycle(expression)]
#[tactic(auto, unfolding(js_read_spec::specs::Expressions::bracketed_at))]
fn bracketed_of<'a>(alloc: Global, fuel: usize, bytes: &'a [u8]) -> Read<'a>
    ensures { Gives (λ x. (expression_view x.0, x.1.now)) result (reading.bracketed_at (reading.expression_at fuel) fuel (reading.wordless_at fuel) bytes.now) }
{
    if next_is(b'"', bytes) {
        let rest = literal(b"\"", bytes)?;
        string_of(alloc, fuel, rest)
    } else if next_is(b'[', bytes) {
        let rest = literal(b"[", bytes)?;
        let (items, rest) = expressions_of(alloc, fuel, b']', rest)?;
        Ok((JsExpr::List(items), rest))
    } else {
        let rest = literal(b"(", bytes)?;
        parenthesis_of(alloc, fuel, rest)
    }
}

/// An expression and these bytes behind it.
#[tactic(auto, unfolding(js_read_scan::specs::Parts::before_at))]
pub fn expression_before<'a>(alloc: Global, fuel: usize, end: &[u8], bytes: &'a [u8]) -> Read<'a>
    ensures { Gives (λ x. (expression_view x.0, x.1.now)) result (before_at end.now (reading.expression_at fuel) bytes.now) }
{
    let (expression, rest) = expression_of(alloc, fuel, bytes)?;
    let rest = literal(end, rest)?;
    Ok((expression, rest))
}

/// An expression with these bytes in front of it and behind it.
pub fn expression_between<'a>(
    alloc: Global,
    fuel: usize,
    lead: &[u8],
    end: &[u8],
    bytes: &'a [u8],
) -> Read<'a>
    ensures { Gives (λ x. (expression_view x.0, x.1.now)) result (lead_at lead.now (before_at end.now (reading.expression_at fuel)) bytes.now) }
{
    let rest = literal(lead, bytes)?;
    expression_before(alloc, fuel, end, rest)
}
