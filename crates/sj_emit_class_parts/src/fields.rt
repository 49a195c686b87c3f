// The fields of a class: where instances begin, and the variables of static ones.
ghost use Rattle.std.specs.Prelude.{◌≡◌, ◌++◌, map, OnOk, IfOk};
ghost use Rattle.js_tree.specs.Views.{expression_view, piece_view, statement_view};
ghost use Rattle.piece_making.specs.Made.{Makes};
ghost use Rattle.sj_emit_class_spec.specs.Pieces as pieces;

use js_tree::{JsExpr, JsPiece, JsStmt};
use piece_making::{
    assign, bound, function, let_item, name, no_bindings, one_binding, one_parameter,
    one_statement, piece, set_property, text, text_of,
};
use sj_mangling::{FieldBinding, field_binding};
use sj_names::{ClassName, NoMemory};
use sj_trees::{FieldDef, IrType};
use std::alloc::Global;

/// The value that a field of this type begins with.
fn zero_of(alloc: Global, tpe: &IrType) -> Result<JsExpr, NoMemory>
    ensures { Makes expression_view result (pieces.zero_of tpe.now) }
{
    match tpe {
        IrType::Boolean => Ok(JsExpr::Boolean(false)),
        IrType::Char | IrType::Byte | IrType::Short | IrType::Int => Ok(JsExpr::Number(0)),
        IrType::Long => Ok(JsExpr::BigInt(0)),
        IrType::String => text_of(alloc, text(alloc, "")),
        IrType::Undefined => Ok(JsExpr::Undefined),
        _ => Ok(JsExpr::Null),
    }
}

/// Puts `this.f_C__f = zero;` for each of the fields behind other statements.
pub fn put_starts(
    alloc: Global,
    class: &ClassName,
    fields: &[&FieldDef],
    statements: &mut Vec<JsStmt>,
) -> Result<(), NoMemory>
    ensures { OnOk result (map statement_view statements.new.items ≡ map statement_view statements.old.items ++ map (pieces.field_start class.now) (map (λ f. f.now) fields.now)) }
{
    for field in fields {
        statements.push(field_start(alloc, class, field)?)?;
    }
    Ok(())
}

fn field_start(alloc: Global, class: &ClassName, field: &FieldDef) -> Result<JsStmt, NoMemory>
    ensures { Makes statement_view result (pieces.field_start class.now field.now) }
{
    set_property(
        field_binding(alloc, FieldBinding::Property, class, &field.name),
        zero_of(alloc, &field.tpe),
    )
}

/// Puts `let t_C__f = zero;` and `function u_C__f(x) { t_C__f = x; }` for each of the fields behind other pieces.
pub fn put_statics(
    alloc: Global,
    class: &ClassName,
    fields: &[&FieldDef],
    all: &mut Vec<JsPiece>,
) -> Result<(), NoMemory>
    ensures { OnOk result (map piece_view all.new.items ≡ map piece_view all.old.items ++ pieces.all_statics class.now (map (λ f. f.now) fields.now)) }
{
    for field in fields {
        all.push(variable_piece(alloc, class, field)?)?;
        all.push(setter_piece(alloc, class, field)?)?;
    }
    Ok(())
}

fn variable_piece(alloc: Global, class: &ClassName, field: &FieldDef) -> Result<JsPiece, NoMemory>
    ensures { Makes piece_view result (pieces.variable_piece class.now field.now) }
{
    piece(
        alloc,
        bound(
            class,
            field_binding(alloc, FieldBinding::Variable, class, &field.name),
        ),
        no_bindings(alloc),
        let_item(
            field_binding(alloc, FieldBinding::Variable, class, &field.name),
            zero_of(alloc, &field.tpe),
        ),
    )
}

fn setter_piece(alloc: Global, class: &ClassName, field: &FieldDef) -> Result<JsPiece, NoMemory>
    ensures { IfOk result (λ p. piece_view p ≡ pieces.setter_piece class.now field.now) }
{
    let variable = field_binding(alloc, FieldBinding::Variable, class, &field.name)?;
    let name = field_binding(alloc, FieldBinding::Setter, class, &field.name)?;
    set_piece(alloc, class, name.as_str(), variable.as_str())
}

/// `function NAME(x) { variable = x; }`, as a piece of the class.
pub fn set_piece(
    alloc: Global,
    class: &ClassName,
    function_name: &str,
    variable: &str,
) -> Result<JsPiece, NoMemory>
    ensures { IfOk result (λ p. piece_view p ≡ pieces.set_piece class.now function_name.now variable.now) }
{
    piece(
        alloc,
        bound(class, text(alloc, function_name)),
        one_binding(alloc, bound(class, text(alloc, variable))),
        function(
            alloc,
            text(alloc, function_name),
            one_parameter(alloc, "x"),
            one_statement(alloc, assign(text(alloc, variable), name(alloc, "x"))),
        ),
    )
}
