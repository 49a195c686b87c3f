// Expressions.
ghost use Rattle.std.specs.Prelude.{◌≡◌, ◌++◌, IfOk, OnOk};
ghost use Rattle.std.specs.Char.Escape.{encode_utf16};
ghost use Rattle.sj_emit_help_spec.specs.Words.{units_of as units_in};
ghost use Rattle.js_tree.specs.Terms as js;
ghost use Rattle.js_tree.specs.Views.{expression_view, expressions_view};
ghost use Rattle.js_tree.specs.declared.operators.BinaryOperator.TheVariants.{And, Or, StrictEqual, StrictNotEqual};
ghost use Rattle.js_tree.specs.declared.operators.UnaryOperator.TheVariants.{TypeOf};
ghost use Rattle.piece_making.specs.Made.{Makes};

use js_tree::{BinaryOperator, JsExpr, UnaryOperator};
use sj_names::{NoMemory, Text};
use sj_units::Units;
use std::alloc::Global;

/// `x`
pub fn name(alloc: Global, name: &str) -> Result<JsExpr, NoMemory>
    ensures { Makes expression_view result (js.name_use name.now) }
{
    Ok(JsExpr::Name(Text::from_str(alloc, name)?))
}

/// The use of a name that was made.
pub fn name_of(name: Result<Text, NoMemory>) -> Result<JsExpr, NoMemory>
    ensures { (x : js.Name) → IfOk name (λ t. t ≡ x) → Makes expression_view result (js.name_use x) }
{
    Ok(JsExpr::Name(name?))
}

fn boxed(alloc: Global, made: Result<JsExpr, NoMemory>) -> Result<Box<JsExpr>, NoMemory>
    ensures { (e : js.Expression) → Makes expression_view made e → IfOk result (λ b. expression_view b.value ≡ e) }
{
    Ok(Box::new(alloc, made?)?)
}

/// `e.p`
pub fn property(
    alloc: Global,
    object: Result<JsExpr, NoMemory>,
    property: &str,
) -> Result<JsExpr, NoMemory>
    ensures { (e : js.Expression) → Makes expression_view object e → Makes expression_view result (js.property_of e property.now) }
{
    let object = boxed(alloc, object)?;
    Ok(JsExpr::Property {
        object,
        property: Text::from_str(alloc, property)?,
    })
}

/// No arguments.
pub fn no_arguments(alloc: Global) -> Result<Vec<JsExpr>, NoMemory>
    ensures { Makes (λ es. expressions_view es.items) result js.no_expressions }
{
    Ok(Vec::new(alloc))
}

/// One argument.
pub fn one_argument(
    alloc: Global,
    argument: Result<JsExpr, NoMemory>,
) -> Result<Vec<JsExpr>, NoMemory>
    ensures { (e : js.Expression) → Makes expression_view argument e → Makes (λ es. expressions_view es.items) result (js.expression e js.no_expressions) }
{
    Ok(vec![in alloc; argument?]?)
}

/// `x(e, ..)`
pub fn call(
    function: Result<Text, NoMemory>,
    arguments: Result<Vec<JsExpr>, NoMemory>,
) -> Result<JsExpr, NoMemory>
    ensures { (x : js.Name) (es : js.Expressions) → IfOk function (λ t. t ≡ x) → Makes (λ es. expressions_view es.items) arguments es → Makes expression_view result (js.call_of x es) }
{
    let function = function?;
    Ok(JsExpr::Call {
        function,
        arguments: arguments?,
    })
}

/// `e.p(e, ..)`
pub fn method_call(
    alloc: Global,
    object: Result<JsExpr, NoMemory>,
    property: Result<Text, NoMemory>,
    arguments: Result<Vec<JsExpr>, NoMemory>,
) -> Result<JsExpr, NoMemory>
    ensures { (e : js.Expression) (p : js.Name) (es : js.Expressions) → Makes expression_view object e → IfOk property (λ t. t ≡ p) → Makes (λ es. expressions_view es.items) arguments es → Makes expression_view result (js.method_call_of e p es) }
{
    let property = property?;
    let object = boxed(alloc, object)?;
    Ok(JsExpr::MethodCall {
        object,
        property,
        arguments: arguments?,
    })
}

/// `new x(e, ..)`
pub fn new_of(
    class: Result<Text, NoMemory>,
    arguments: Result<Vec<JsExpr>, NoMemory>,
) -> Result<JsExpr, NoMemory>
    ensures { (x : js.Name) (es : js.Expressions) → IfOk class (λ t. t ≡ x) → Makes (λ es. expressions_view es.items) arguments es → Makes expression_view result (js.new_of x es) }
{
    let class = class?;
    Ok(JsExpr::New {
        class,
        arguments: arguments?,
    })
}

/// `(left op right)`
pub fn binary(
    alloc: Global,
    left: Result<JsExpr, NoMemory>,
    operator: BinaryOperator,
    right: Result<JsExpr, NoMemory>,
) -> Result<JsExpr, NoMemory>
    ensures { (e f : js.Expression) → Makes expression_view left e → Makes expression_view right f → Makes expression_view result (js.binary_of e operator f) }
{
    let right = boxed(alloc, right);
    let left = boxed(alloc, left)?;
    Ok(JsExpr::Binary {
        left,
        operator,
        right: right?,
    })
}

/// `(left && right)`
pub fn both(
    alloc: Global,
    left: Result<JsExpr, NoMemory>,
    right: Result<JsExpr, NoMemory>,
) -> Result<JsExpr, NoMemory>
    ensures { (e f : js.Expression) → Makes expression_view left e → Makes expression_view right f → Makes expression_view result (js.binary_of e And f) }
{
    binary(alloc, left, BinaryOperator::And, right)
}

/// `(left || right)`
pub fn either(
    alloc: Global,
    left: Result<JsExpr, NoMemory>,
    right: Result<JsExpr, NoMemory>,
) -> Result<JsExpr, NoMemory>
    ensures { (e f : js.Expression) → Makes expression_view left e → Makes expression_view right f → Makes expression_view result (js.binary_of e Or f) }
{
    binary(alloc, left, BinaryOperator::Or, right)
}

/// `(test ? yes : no)`
pub fn conditional(
    alloc: Global,
    test: Result<JsExpr, NoMemory>,
    yes: Result<JsExpr, NoMemory>,
    no: Result<JsExpr, NoMemory>,
) -> Result<JsExpr, NoMemory>
    ensures { (c e f : js.Expression) → Makes expression_view test c → Makes expression_view yes e → Makes expression_view no f → Makes expression_view result (js.conditional_of c e f) }
{
    let test = boxed(alloc, test);
    let yes = boxed(alloc, yes);
    let no = boxed(alloc, no)?;
    let yes = yes?;
    Ok(JsExpr::Conditional {
        test: test?,
        yes,
        no,
    })
}

/// `(e === null)`
pub fn is_null(alloc: Global, operand: Result<JsExpr, NoMemory>) -> Result<JsExpr, NoMemory>
    ensures { (e : js.Expression) → Makes expression_view operand e → Makes expression_view result (js.binary_of e StrictEqual js.null_literal) }
{
    binary(
        alloc,
        operand,
        BinaryOperator::StrictEqual,
        Ok(JsExpr::Null),
    )
}

/// `(e !== null)`
pub fn not_null(alloc: Global, operand: Result<JsExpr, NoMemory>) -> Result<JsExpr, NoMemory>
    ensures { (e : js.Expression) → Makes expression_view operand e → Makes expression_view result (js.binary_of e StrictNotEqual js.null_literal) }
{
    binary(
        alloc,
        operand,
        BinaryOperator::StrictNotEqual,
        Ok(JsExpr::Null),
    )
}

fn type_of(alloc: Global, operand: Result<JsExpr, NoMemory>) -> Result<JsExpr, NoMemory>
    ensures { (e : js.Expression) → Makes expression_view operand e → Makes expression_view result (js.unary_of TypeOf e) }
{
    Ok(JsExpr::Unary {
        operator: UnaryOperator::TypeOf,
        operand: boxed(alloc, operand)?,
    })
}

/// `((typeof e) === "word")`
pub fn has_word(
    alloc: Global,
    operand: Result<JsExpr, NoMemory>,
    word: Result<Text, NoMemory>,
) -> Result<JsExpr, NoMemory>
    ensures { (e : js.Expression) (w : js.Name) → Makes expression_view operand e → IfOk word (λ t. t ≡ w) → Makes expression_view result (js.binary_of (js.unary_of TypeOf e) StrictEqual (js.text_literal w)) }
{
    binary(
        alloc,
        type_of(alloc, operand),
        BinaryOperator::StrictEqual,
        text_of(alloc, word),
    )
}

/// A literal whose units are the bytes of this text: the text itself where it is ASCII.
pub fn text_of(alloc: Global, text: Result<Text, NoMemory>) -> Result<JsExpr, NoMemory>
    ensures { (x : js.Name) → IfOk text (λ t. t ≡ x) → Makes expression_view result (js.text_literal x) }
{
    literal(units_of(alloc, text?.as_str().as_bytes())?)
}

/// A literal of this text, whose units are its characters in UTF-16.
pub fn wide_text(alloc: Global, text: &str) -> Result<JsExpr, NoMemory>
    ensures { Makes expression_view result (js.text_literal (units_in text.now)) }
{
    literal(units_of_text(alloc, text)?)
}

// A literal of these units.
fn literal(units: Vec<u16>) -> Result<JsExpr, NoMemory>
    ensures { Makes expression_view result (js.text_literal units.items) }
{
    Ok(JsExpr::Text(Units::from_vec(units)?))
}

fn units_of(alloc: Global, bytes: &[u8]) -> Result<Vec<u16>, NoMemory>
    ensures { IfOk result (λ units. units.items ≡ bytes.now) }
{
    let mut units = Vec::new(alloc);
    for byte in bytes {
        units.push(u16::from(*byte))?;
    }
    Ok(units)
}

fn units_of_text(alloc: Global, text: &str) -> Result<Vec<u16>, NoMemory>
    ensures { IfOk result (λ units. units.items ≡ units_in text.now) }
{
    let mut units = Vec::new(alloc);
    for character in text.chars() {
        push_units(&mut units, character)?;
    }
    Ok(units)
}

// Puts the one or two units of a character behind the others.
fn push_units(units: &mut Vec<u16>, character: char) -> Result<(), NoMemory>
    ensures { OnOk result (units.new.items ≡ units.old.items ++ encode_utf16 character) }
{
    let mut room = [0; 2];
    let coded = character.encode_utf16(&mut room);
    units.extend_from_slice(coded)?;
    Ok(())
}
