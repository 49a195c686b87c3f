// The templates of operators.
ghost use Rattle.std.specs.Prelude.{◌≡◌, [], IfOk, codes};
ghost use Rattle.js_tree.specs.Terms as js;
ghost use Rattle.js_tree.specs.Views.{expression_view, expressions_view};
ghost use Rattle.js_tree.specs.declared.operators.BinaryOperator.TheVariants.{ShiftLeft, ShiftRight};
ghost use Rattle.js_tree.specs.declared.operators.HostFunction.TheVariants.{Number};
ghost use Rattle.js_tree.specs.declared.operators.HostOperation.TheVariants.{BigIntAsIntN, BigIntAsUintN};
ghost use Rattle.sj_core.specs.Views as core;
ghost use Rattle.sj_emit_expr_spec.specs.Templates as templates;

use js_tree::{BinaryOperator, HostFunction, HostOperation, JsExpr, UnaryOperator};
use sj_core::CoreExpression;
use sj_names::{NoMemory, Text};
use sj_trees::{BinaryOp, UnaryOp};
use sj_units::Units;
use std::alloc::Global;

/// `(left op right)`
pub fn binary_of(
    alloc: Global,
    left: JsExpr,
    operator: BinaryOperator,
    right: JsExpr,
) -> Result<JsExpr, NoMemory>
    ensures { IfOk result (λ e. expression_view e ≡ js.binary_of (expression_view left) operator (expression_view right)) }
{
    let left = Box::new(alloc, left)?;
    let right = Box::new(alloc, right)?;
    Ok(JsExpr::Binary {
        left,
        operator,
        right,
    })
}

/// `(!e)`
fn negated(alloc: Global, operand: JsExpr) -> Result<JsExpr, NoMemory>
    ensures { IfOk result (λ e. expression_view e ≡ templates.negated (expression_view operand)) }
{
    Ok(JsExpr::Unary {
        operator: UnaryOperator::Not,
        operand: Box::new(alloc, operand)?,
    })
}

/// `(e | 0)`
fn or_zero(alloc: Global, operand: JsExpr) -> Result<JsExpr, NoMemory>
    ensures { IfOk result (λ e. expression_view e ≡ templates.or_zero (expression_view operand)) }
{
    binary_of(alloc, operand, BinaryOperator::BitOr, JsExpr::Number(0))
}

/// `((e << 24) >> 24)`: the low 8 bits with their sign.
fn cut_to_byte(alloc: Global, operand: JsExpr) -> Result<JsExpr, NoMemory>
    ensures { IfOk result (λ e. expression_view e ≡ templates.cut 24 (expression_view operand)) }
{
    let shifted = binary_of(
        alloc,
        operand,
        BinaryOperator::ShiftLeft,
        JsExpr::Number(24),
    )?;
    binary_of(
        alloc,
        shifted,
        BinaryOperator::ShiftRight,
        JsExpr::Number(24),
    )
}

/// `((e << 16) >> 16)`: the low 16 bits with their sign.
fn cut_to_short(alloc: Global, operand: JsExpr) -> Result<JsExpr, NoMemory>
    ensures { IfOk result (λ e. expression_view e ≡ templates.cut 16 (expression_view operand)) }
{
    let shifted = binary_of(
        alloc,
        operand,
        BinaryOperator::ShiftLeft,
        JsExpr::Number(16),
    )?;
    binary_of(
        alloc,
        shifted,
        BinaryOperator::ShiftRight,
        JsExpr::Number(16),
    )
}

/// `((left op right) | 0)`
fn wrapped_int(
    alloc: Global,
    left: JsExpr,
    operator: BinaryOperator,
    right: JsExpr,
) -> Result<JsExpr, NoMemory>
    ensures { IfOk result (λ e. expression_view e ≡ templates.or_zero (js.binary_of (expression_view left) operator (expression_view right))) }
{
    let plain = binary_of(alloc, left, operator, right)?;
    or_zero(alloc, plain)
}

/// `(!(!(left op right)))`: a Number as a boolean.
fn as_boolean(
    alloc: Global,
    left: JsExpr,
    operator: BinaryOperator,
    right: JsExpr,
) -> Result<JsExpr, NoMemory>
    ensures { IfOk result (λ e. expression_view e ≡ templates.negated (templates.negated (js.binary_of (expression_view left) operator (expression_view right)))) }
{
    let plain = binary_of(alloc, left, operator, right)?;
    let inverse = negated(alloc, plain)?;
    negated(alloc, inverse)
}

/// `function(e)`
pub fn host_call(
    alloc: Global,
    function: HostFunction,
    argument: JsExpr,
) -> Result<JsExpr, NoMemory>
    ensures { IfOk result (λ e. expression_view e ≡ js.host_call function (expression_view argument)) }
{
    let argument = Box::new(alloc, argument)?;
    Ok(JsExpr::Host { function, argument })
}

/// `function(first, second)`
fn host_call_of_two(
    alloc: Global,
    function: HostOperation,
    first: JsExpr,
    second: JsExpr,
) -> Result<JsExpr, NoMemory>
    ensures { IfOk result (λ e. expression_view e ≡ js.host_call_of_two function (expression_view first) (expression_view second)) }
{
    let first = Box::new(alloc, first)?;
    let second = Box::new(alloc, second)?;
    Ok(JsExpr::HostOfTwo {
        function,
        first,
        second,
    })
}

/// `BigInt.asIntN(64, e)`
fn as_long(alloc: Global, operand: JsExpr) -> Result<JsExpr, NoMemory>
    ensures { IfOk result (λ e. expression_view e ≡ templates.wrapped (expression_view operand)) }
{
    host_call_of_two(
        alloc,
        HostOperation::BigIntAsIntN,
        JsExpr::Number(64),
        operand,
    )
}

/// `BigInt.asIntN(64, (left op right))`
fn wrapped_long(
    alloc: Global,
    left: JsExpr,
    operator: BinaryOperator,
    right: JsExpr,
) -> Result<JsExpr, NoMemory>
    ensures { IfOk result (λ e. expression_view e ≡ templates.wrapped (js.binary_of (expression_view left) operator (expression_view right))) }
{
    let plain = binary_of(alloc, left, operator, right)?;
    as_long(alloc, plain)
}

/// `BigInt((e & 63))`: by how many places a long is shifted.
fn places(alloc: Global, count: JsExpr) -> Result<JsExpr, NoMemory>
    ensures { IfOk result (λ e. expression_view e ≡ templates.places (expression_view count)) }
{
    let masked = binary_of(alloc, count, BinaryOperator::BitAnd, JsExpr::Number(63))?;
    host_call(alloc, HostFunction::BigInt, masked)
}

/// `(e op BigInt((count & 63)))`: a long shifted, not wrapped.
fn shifted(
    alloc: Global,
    operand: JsExpr,
    operator: BinaryOperator,
    count: JsExpr,
) -> Result<JsExpr, NoMemory>
    ensures { IfOk result (λ e. expression_view e ≡ js.binary_of (expression_view operand) operator (templates.places (expression_view count))) }
{
    let count = places(alloc, count)?;
    binary_of(alloc, operand, operator, count)
}

/// `BigInt.asIntN(64, (e << BigInt((count & 63))))`
fn long_shifted_left(alloc: Global, operand: JsExpr, count: JsExpr) -> Result<JsExpr, NoMemory>
    ensures { IfOk result (λ e. expression_view e ≡ templates.wrapped (js.binary_of (expression_view operand) ShiftLeft (templates.places (expression_view count)))) }
{
    let plain = shifted(alloc, operand, BinaryOperator::ShiftLeft, count)?;
    as_long(alloc, plain)
}

/// `BigInt.asIntN(64, (BigInt.asUintN(64, e) >> BigInt((count & 63))))`: zeros come in from the left.
fn long_shifted_right(alloc: Global, operand: JsExpr, count: JsExpr) -> Result<JsExpr, NoMemory>
    ensures { IfOk result (λ e. expression_view e ≡ templates.wrapped (js.binary_of (js.host_call_of_two BigIntAsUintN (templates.whole 64) (expression_view operand)) ShiftRight (templates.places (expression_view count)))) }
{
    let unsigned = host_call_of_two(
        alloc,
        HostOperation::BigIntAsUintN,
        JsExpr::Number(64),
        operand,
    )?;
    let plain = shifted(alloc, unsigned, BinaryOperator::ShiftRight, count)?;
    as_long(alloc, plain)
}

/// `Number(BigInt.asIntN(32, e))`: the low 32 bits of a long with their sign.
fn low_int(alloc: Global, operand: JsExpr) -> Result<JsExpr, NoMemory>
    ensures { IfOk result (λ e. expression_view e ≡ js.host_call Number (js.host_call_of_two BigIntAsIntN (templates.whole 32) (expression_view operand))) }
{
    let low = host_call_of_two(
        alloc,
        HostOperation::BigIntAsIntN,
        JsExpr::Number(32),
        operand,
    )?;
    host_call(alloc, HostFunction::Number, low)
}

/// `("" + e)`: a value as its text.
pub fn as_text(alloc: Global, operand: JsExpr) -> Result<JsExpr, NoMemory>
    ensures { IfOk result (λ e. expression_view e ≡ templates.as_text (expression_view operand)) }
{
    let empty = empty_text(alloc)?;
    binary_of(alloc, empty, BinaryOperator::Add, operand)
}

/// `""`
pub fn empty_text(alloc: Global) -> Result<JsExpr, NoMemory>
    ensures { IfOk result (λ e. expression_view e ≡ js.text_literal []) }
{
    Ok(JsExpr::Text(Units::from_vec(Vec::new(alloc))?))
}

/// `helper(left, right)`
pub fn helper_call(
    alloc: Global,
    helper: &str,
    left: JsExpr,
    right: JsExpr,
) -> Result<JsExpr, NoMemory>
    ensures { IfOk result (λ e. expression_view e ≡ js.call_of helper.now (js.expression (expression_view left) (js.expression (expression_view right) js.no_expressions))) }
{
    let function = Text::from_str(alloc, helper)?;
    let arguments = pair(alloc, left, right)?;
    Ok(JsExpr::Call {
        function,
        arguments,
    })
}

fn pair(alloc: Global, left: JsExpr, right: JsExpr) -> Result<Vec<JsExpr>, NoMemory>
    ensures { IfOk result (λ es. expressions_view es.items ≡ js.expression (expression_view left) (js.expression (expression_view right) js.no_expressions)) }
{
    let mut arguments = Vec::new(alloc);
    arguments.push(left)?;
    arguments.push(right)?;
    Ok(arguments)
}

/// `new $C(e)`: a char as an object that holds it.
pub fn boxed_char(alloc: Global, operand: JsExpr) -> Result<JsExpr, NoMemory>
    ensures { IfOk result (λ e. expression_view e ≡ js.new_of (codes "$C") (js.expression (expression_view operand) js.no_expressions)) }
{
    let class = Text::from_str(alloc, "$C")?;
    let mut arguments = Vec::new(alloc);
    arguments.push(operand)?;
    Ok(JsExpr::New { class, arguments })
}

/// An operator on an operand.
pub fn unary_template(alloc: Global, op: UnaryOp, operand: JsExpr) -> Result<JsExpr, NoMemory>
    ensures { IfOk result (λ e. expression_view e ≡ templates.unary_template op (expression_view operand)) }
{
    match op {
        UnaryOp::BooleanNot => negated(alloc, operand),
        UnaryOp::CharToInt | UnaryOp::ByteToInt | UnaryOp::ShortToInt => Ok(operand),
        UnaryOp::IntToLong => host_call(alloc, HostFunction::BigInt, operand),
        UnaryOp::IntToChar => {
            let mask = JsExpr::Number(65535);
            binary_of(alloc, operand, BinaryOperator::BitAnd, mask)
        }
        UnaryOp::IntToByte => cut_to_byte(alloc, operand),
        UnaryOp::IntToShort => cut_to_short(alloc, operand),
        UnaryOp::LongToInt => low_int(alloc, operand),
    }
}

/// Whether an expression is a literal other than zero.
pub fn is_nonzero_literal(expression: &CoreExpression) -> bool
    ensures { result ≡ templates.is_nonzero_literal (core.expression_view expression.now) }
{
    match expression {
        CoreExpression::Undefined
        | CoreExpression::Null
        | CoreExpression::Boolean(_)
        | CoreExpression::Text(_) => true,
        CoreExpression::Number(number) => *number != 0,
        CoreExpression::Long(number) => *number != 0,
        _ => false,
    }
}

/// An operator on two operands, by whether the right one is a literal other than zero.
pub fn binary_template(
    alloc: Global,
    nonzero: bool,
    op: BinaryOp,
    left: JsExpr,
    right: JsExpr,
) -> Result<JsExpr, NoMemory>
    ensures { IfOk result (λ e. expression_view e ≡ templates.binary_template nonzero op (expression_view left) (expression_view right)) }
{
    match op {
        BinaryOp::StringConcatenate => binary_of(alloc, left, BinaryOperator::Add, right),
        BinaryOp::BooleanEqual | BinaryOp::IntEqual | BinaryOp::LongEqual => {
            binary_of(alloc, left, BinaryOperator::StrictEqual, right)
        }
        BinaryOp::BooleanNotEqual | BinaryOp::IntNotEqual | BinaryOp::LongNotEqual => {
            binary_of(alloc, left, BinaryOperator::StrictNotEqual, right)
        }
        BinaryOp::BooleanOr => as_boolean(alloc, left, BinaryOperator::BitOr, right),
        BinaryOp::BooleanAnd => as_boolean(alloc, left, BinaryOperator::BitAnd, right),
        BinaryOp::IntAdd => wrapped_int(alloc, left, BinaryOperator::Add, right),
        BinaryOp::IntSubtract => wrapped_int(alloc, left, BinaryOperator::Subtract, right),
        BinaryOp::IntMultiply => host_call_of_two(alloc, HostOperation::MathImul, left, right),
        BinaryOp::IntDivide if nonzero => wrapped_int(alloc, left, BinaryOperator::Divide, right),
        BinaryOp::IntDivide => helper_call(alloc, "$id", left, right),
        BinaryOp::IntRemainder if nonzero => {
            wrapped_int(alloc, left, BinaryOperator::Remainder, right)
        }
        BinaryOp::IntRemainder => helper_call(alloc, "$im", left, right),
        BinaryOp::IntOr | BinaryOp::LongOr => {
            binary_of(alloc, left, BinaryOperator::BitOr, right)
        }
        BinaryOp::IntAnd | BinaryOp::LongAnd => {
            binary_of(alloc, left, BinaryOperator::BitAnd, right)
        }
        BinaryOp::IntXor | BinaryOp::LongXor => {
            binary_of(alloc, left, BinaryOperator::BitXor, right)
        }
        BinaryOp::IntShiftLeft => binary_of(alloc, left, BinaryOperator::ShiftLeft, right),
        BinaryOp::IntShiftRightLogical => {
            wrapped_int(alloc, left, BinaryOperator::ShiftRightUnsigned, right)
        }
        BinaryOp::IntShiftRightArithmetic => {
            binary_of(alloc, left, BinaryOperator::ShiftRight, right)
        }
        BinaryOp::IntLess | BinaryOp::LongLess => {
            binary_of(alloc, left, BinaryOperator::Less, right)
        }
        BinaryOp::IntLessOrEqual | BinaryOp::LongLessOrEqual => {
            binary_of(alloc, left, BinaryOperator::LessOrEqual, right)
        }
        BinaryOp::IntGreater | BinaryOp::LongGreater => {
            binary_of(alloc, left, BinaryOperator::Greater, right)
        }
        BinaryOp::IntGreaterOrEqual | BinaryOp::LongGreaterOrEqual => {
            binary_of(alloc, left, BinaryOperator::GreaterOrEqual, right)
        }
        BinaryOp::LongAdd => wrapped_long(alloc, left, BinaryOperator::Add, right),
        BinaryOp::LongSubtract => wrapped_long(alloc, left, BinaryOperator::Subtract, right),
        BinaryOp::LongMultiply => wrapped_long(alloc, left, BinaryOperator::Multiply, right),
        BinaryOp::LongDivide if nonzero => {
            wrapped_long(alloc, left, BinaryOperator::Divide, right)
        }
        BinaryOp::LongDivide => helper_call(alloc, "$ld", left, right),
        BinaryOp::LongRemainder if nonzero => {
            binary_of(alloc, left, BinaryOperator::Remainder, right)
        }
        BinaryOp::LongRemainder => helper_call(alloc, "$lm", left, right),
        BinaryOp::LongShiftLeft => long_shifted_left(alloc, left, right),
        BinaryOp::LongShiftRightLogical => long_shifted_right(alloc, left, right),
        BinaryOp::LongShiftRightArithmetic => {
            shifted(alloc, left, BinaryOperator::ShiftRight, right)
        }
        BinaryOp::StrictEqual => helper_call(alloc, "$eq", left, right),
        BinaryOp::StrictNotEqual => negated(alloc, helper_call(alloc, "$eq", left, right)?),
    }
}
