// Literals, locals, This, static fields and the one objects of classes as statements.
ghost use Rattle.std.specs.Prelude.{◌≡◌, true, false, IfOk};
ghost use Rattle.sj_core.specs.Terms as terms;
ghost use Rattle.sj_desugar_spec.specs.Desugar as desugar;
ghost use Rattle.sj_desugar_forms.specs.Forms.{value_code};
ghost use Rattle.sj_desugar_forms.specs.Views.{destination_view, code_view};
ghost use Rattle.sj_trees.specs.Types.{class_type};
ghost use Rattle.sj_trees.specs.View.{view};
ghost use Rattle.sj_trees.specs.declared.types.IrType.TheVariants.{String};

use crate::destinations::Destination;
use crate::forms::finish;
use crate::writing::{Written, nothing};
use sj_core::{CoreExpression, CoreVariable};
use sj_desugar_plain::{local_use, module_of, static_field};
use sj_names::{ClassName, LocalName, NoMemory};
use sj_trees::{IrType, Position, Tree};
use sj_units::Units;
use std::alloc::Global;

/// The statements that bring the value of a literal, a local, This, a static field or the one object of a class to a destination. No statements for any other tree.
pub fn value_of(
    alloc: Global,
    destination: &Destination,
    next: u64,
    tree: &Tree,
) -> Result<Written, NoMemory>
    ensures { IfOk result (λ w. code_view w ≡ value_code (destination_view destination.now) next (view tree.now)) }
{
    match tree {
        Tree::Undefined { position } => {
            let value = CoreExpression::Undefined;
            finish(
                alloc,
                destination,
                *position,
                &IrType::Undefined,
                true,
                value,
                next,
            )
        }
        Tree::Null { position } => {
            let value = CoreExpression::Null;
            finish(
                alloc,
                destination,
                *position,
                &IrType::Null,
                true,
                value,
                next,
            )
        }
        Tree::BooleanLiteral { position, value } => {
            let value = CoreExpression::Boolean(*value);
            finish(
                alloc,
                destination,
                *position,
                &IrType::Boolean,
                true,
                value,
                next,
            )
        }
        Tree::CharLiteral {
            position,
            value: unit,
        } => {
            let value = CoreExpression::Number(i32::from(*unit));
            finish(
                alloc,
                destination,
                *position,
                &IrType::Char,
                true,
                value,
                next,
            )
        }
        Tree::ByteLiteral { position, value } => {
            let value = CoreExpression::Number(i32::from(*value));
            finish(
                alloc,
                destination,
                *position,
                &IrType::Byte,
                true,
                value,
                next,
            )
        }
        Tree::ShortLiteral { position, value } => {
            let value = CoreExpression::Number(i32::from(*value));
            finish(
                alloc,
                destination,
                *position,
                &IrType::Short,
                true,
                value,
                next,
            )
        }
        Tree::IntLiteral { position, value } => {
            let value = CoreExpression::Number(*value);
            finish(
                alloc,
                destination,
                *position,
                &IrType::Int,
                true,
                value,
                next,
            )
        }
        Tree::LongLiteral { position, value } => {
            let value = CoreExpression::Long(*value);
            finish(
                alloc,
                destination,
                *position,
                &IrType::Long,
                true,
                value,
                next,
            )
        }
        Tree::StringLiteral {
            position,
            value: units,
        } => { text_value(alloc, destination, next, *position, units) }
        Tree::VarRef {
            position,
            name,
            tpe,
        } => { local_value(alloc, destination, next, *position, name, tpe) }
        Tree::This { position, tpe } => {
            let value = CoreExpression::Variable(CoreVariable::Receiver);
            finish(alloc, destination, *position, tpe, true, value, next)
        }
        Tree::SelectStatic {
            position,
            class,
            field,
            tpe,
        } => {
            let value = static_field(class, field)?;
            finish(alloc, destination, *position, tpe, false, value, next)
        }
        Tree::LoadModule { position, class } => {
            module_value(alloc, destination, next, *position, class)
        }
        Tree::VarDef { .. }
        | Tree::Skip { .. }
        | Tree::Block { .. }
        | Tree::Labeled { .. }
        | Tree::Assign { .. }
        | Tree::Return { .. }
        | Tree::If { .. }
        | Tree::While { .. }
        | Tree::DoWhile { .. }
        | Tree::TryCatch { .. }
        | Tree::TryFinally { .. }
        | Tree::Throw { .. }
        | Tree::Match { .. }
        | Tree::New { .. }
        | Tree::StoreModule { .. }
        | Tree::Select { .. }
        | Tree::Apply { .. }
        | Tree::ApplyStatically { .. }
        | Tree::ApplyStatic { .. }
        | Tree::UnaryOp { .. }
        | Tree::BinaryOp { .. }
        | Tree::NewArray { .. }
        | Tree::ArrayValue { .. }
        | Tree::ArrayLength { .. }
        | Tree::ArraySelect { .. }
        | Tree::IsInstanceOf { .. }
        | Tree::AsInstanceOf { .. }
        | Tree::Log { .. } => Ok(nothing(alloc, next)),
    }
}

fn text_value(
    alloc: Global,
    destination: &Destination,
    next: u64,
    position: Position,
    units: &Units,
) -> Result<Written, NoMemory>
    ensures { IfOk result (λ w. code_view w ≡ desugar.finish (destination_view destination.now) position String true (terms.text_value units.now) next) }
{
    let text = CoreExpression::Text(units.copied()?);
    finish(
        alloc,
        destination,
        position,
        &IrType::String,
        true,
        text,
        next,
    )
}

fn module_value(
    alloc: Global,
    destination: &Destination,
    next: u64,
    position: Position,
    class: &ClassName,
) -> Result<Written, NoMemory>
    ensures { IfOk result (λ w. code_view w ≡ desugar.finish (destination_view destination.now) position (class_type class.now) false (terms.module_of class.now) next) }
{
    let value = module_of(class)?;
    let tpe = IrType::of_class(class.copied()?);
    finish(alloc, destination, position, &tpe, false, value, next)
}

fn local_value(
    alloc: Global,
    destination: &Destination,
    next: u64,
    position: Position,
    name: &LocalName,
    tpe: &IrType,
) -> Result<Written, NoMemory>
    ensures { IfOk result (λ w. code_view w ≡ desugar.finish (destination_view destination.now) position tpe.now true (terms.variable_use (terms.named name.now)) next) }
{
    let local = local_use(name)?;
    finish(alloc, destination, position, tpe, true, local, next)
}
