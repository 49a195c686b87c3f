// Tests and casts.
ghost use Rattle.std.specs.Prelude.{◌≡◌, map, IfOk, None, Some};
ghost use Rattle.js_tree.specs.Terms.{Expression};
ghost use Rattle.js_tree.specs.Views.{expression_view, piece_view};
ghost use Rattle.sj_emit_help_spec.specs.Words as words;
ghost use Rattle.piece_making.specs.Made.{Makes};
ghost use Rattle.sj_emit_class_spec.specs.Pieces as pieces;

use js_tree::{BinaryOperator, Binding, JsExpr, JsPiece};
use piece_making::{
    binary, both, bound, call, class_of_kind, conditional, either, function, has_word,
    helper_binding, helper_name, is_null, name, not_null, one_argument, one_binding, one_parameter,
    only_return, piece, property, text, text_of, two_bindings, wide_text,
};
use sj_emit_help_spec::{Failure, Helper, Kind};
use sj_mangling::{ClassBinding, class_binding};
use sj_names::{ClassName, NoMemory};
use std::alloc::Global;

/// `function is_C(x) { .. }`, where values of these kinds are instances of the class.
pub fn test_piece(alloc: Global, class: &ClassName, kinds: &[Kind]) -> Result<JsPiece, NoMemory>
    ensures { Makes piece_view result (pieces.test_piece class.now kinds.now (pieces.kind_of_class class.now words.all_kinds)) }
{
    test_piece_of(alloc, class, kinds, kind_of_class(class))
}

fn test_piece_of(
    alloc: Global,
    class: &ClassName,
    kinds: &[Kind],
    kind: Option<Kind>,
) -> Result<JsPiece, NoMemory>
    ensures { Makes piece_view result (pieces.test_piece class.now kinds.now kind) }
{
    piece(
        alloc,
        bound(class, class_binding(alloc, ClassBinding::IsInstance, class)),
        test_uses(alloc, kinds, kind),
        function(
            alloc,
            class_binding(alloc, ClassBinding::IsInstance, class),
            one_parameter(alloc, "x"),
            only_return(alloc, instance_test(alloc, class, kinds, kind)),
        ),
    )
}

// The kind of values whose class this is.
fn kind_of_class(class: &ClassName) -> Option<Kind>
    ensures { result ≡ pieces.kind_of_class class.now words.all_kinds }
{
    let text = class.text();
    if text == class_of_kind(Kind::Undefined) {
        Some(Kind::Undefined)
    } else if text == class_of_kind(Kind::Boolean) {
        Some(Kind::Boolean)
    } else if text == class_of_kind(Kind::Char) {
        Some(Kind::Char)
    } else if text == class_of_kind(Kind::Byte) {
        Some(Kind::Byte)
    } else if text == class_of_kind(Kind::Short) {
        Some(Kind::Short)
    } else if text == class_of_kind(Kind::Int) {
        Some(Kind::Int)
    } else if text == class_of_kind(Kind::Long) {
        Some(Kind::Long)
    } else if text == class_of_kind(Kind::Text) {
        Some(Kind::Text)
    } else {
        None
    }
}

fn test_uses(alloc: Global, kinds: &[Kind], kind: Option<Kind>) -> Result<Vec<Binding>, NoMemory>
    ensures { IfOk result (λ bs. bs.items ≡ pieces.test_uses kinds.now kind) }
{
    match kind {
        Some(kind) => one_binding(alloc, helper_binding(alloc, Helper::TestOf(kind))),
        None => test_bindings(alloc, kinds),
    }
}

fn test_bindings(alloc: Global, kinds: &[Kind]) -> Result<Vec<Binding>, NoMemory>
    ensures { IfOk result (λ bs. bs.items ≡ map pieces.test_binding kinds.now) }
{
    let mut bindings = Vec::new(alloc);
    for kind in kinds {
        bindings.push(helper_binding(alloc, Helper::TestOf(*kind))?)?;
    }
    Ok(bindings)
}

// `$isX(x)`
fn kind_test(alloc: Global, kind: Kind) -> Result<JsExpr, NoMemory>
    ensures { Makes expression_view result (pieces.kind_test kind) }
{
    call(
        text(alloc, helper_name(Helper::TestOf(kind))),
        one_argument(alloc, name(alloc, "x")),
    )
}

// `$isX(x)`, or `((x !== null) && ..)`
fn instance_test(
    alloc: Global,
    class: &ClassName,
    kinds: &[Kind],
    kind: Option<Kind>,
) -> Result<JsExpr, NoMemory>
    ensures { Makes expression_view result (pieces.instance_test class.now kinds.now kind) }
{
    match kind {
        Some(kind) => kind_test(alloc, kind),
        None => both(
            alloc,
            not_null(alloc, name(alloc, "x")),
            any_of(alloc, kinds, has_marker(alloc, class)),
        ),
    }
}

// The tests of the kinds and the last one, joined from the left.
fn any_of(alloc: Global, kinds: &[Kind], last: Result<JsExpr, NoMemory>) -> Result<JsExpr, NoMemory>
    ensures { (e : Expression) → Makes expression_view last e → Makes expression_view result (pieces.any_of kinds.now e) }
{
    match kinds.split_first() {
        Some((first, rest)) => either(alloc, joined(alloc, *first, rest), last),
        None => last,
    }
}

fn joined(alloc: Global, first: Kind, rest: &[Kind]) -> Result<JsExpr, NoMemory>
    ensures { Makes expression_view result (pieces.joined (pieces.kind_test first) rest.now) }
{
    let mut test = kind_test(alloc, first)?;
    for kind in rest {
        test = one_more(alloc, test, *kind)?;
    }
    Ok(test)
}

// `(test || $isX(x))`
fn one_more(alloc: Global, test: JsExpr, kind: Kind) -> Result<JsExpr, NoMemory>
    ensures { Makes expression_view result (words.either (expression_view test) (pieces.kind_test kind)) }
{
    either(alloc, Ok(test), kind_test(alloc, kind))
}

// `(((typeof x) === "object") && ("i_C" in x.k))`
fn has_marker(alloc: Global, class: &ClassName) -> Result<JsExpr, NoMemory>
    ensures { Makes expression_view result (pieces.has_marker class.now) }
{
    both(
        alloc,
        has_word(alloc, name(alloc, "x"), text(alloc, "object")),
        binary(
            alloc,
            text_of(alloc, class_binding(alloc, ClassBinding::Marker, class)),
            BinaryOperator::In,
            property(alloc, name(alloc, "x"), "k"),
        ),
    )
}

/// `function as_C(x) { return (((x === null) || is_C(x)) ? x : $cce("class name")); }`
pub fn cast_piece(alloc: Global, class: &ClassName) -> Result<JsPiece, NoMemory>
    ensures { Makes piece_view result (pieces.cast_piece class.now) }
{
    piece(
        alloc,
        bound(class, class_binding(alloc, ClassBinding::AsInstance, class)),
        two_bindings(
            alloc,
            bound(class, class_binding(alloc, ClassBinding::IsInstance, class)),
            helper_binding(alloc, Helper::Throws(Failure::Cast)),
        ),
        function(
            alloc,
            class_binding(alloc, ClassBinding::AsInstance, class),
            one_parameter(alloc, "x"),
            only_return(alloc, cast_value(alloc, class)),
        ),
    )
}

fn cast_value(alloc: Global, class: &ClassName) -> Result<JsExpr, NoMemory>
    ensures { Makes expression_view result (pieces.cast_value class.now) }
{
    conditional(
        alloc,
        either(
            alloc,
            is_null(alloc, name(alloc, "x")),
            call(
                class_binding(alloc, ClassBinding::IsInstance, class),
                one_argument(alloc, name(alloc, "x")),
            ),
        ),
        name(alloc, "x"),
        call(
            text(alloc, "$cce"),
            one_argument(alloc, wide_text(alloc, class.text())),
        ),
    )
}
