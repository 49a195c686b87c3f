// The fields of a tree.
ghost use Rattle.std.specs.Prelude.{◌≡◌, ◌<◌, map};
ghost use Rattle.sj_trees.specs.View.{view};
ghost use Rattle.tree_parts.specs.Sizes.{size};
ghost use Rattle.tree_fields.specs.Fields.{fields_of, field_seen, no_field, seven, size_of_fields};

use sj_names::{ArrayRef, MethodName, Namespace};
use sj_trees::{BinaryOp, IrType, MatchCase, Position, Tree, UnaryOp};
use sj_units::Units;

/// A field of a tree, by its kind.
#[derive(Clone, Copy)]
pub enum Field<'a> {
    None,
    Position(Position),
    /// The name of a local, a label, a class or a field.
    Name(&'a str),
    Type(&'a IrType),
    /// Whether a variable may be assigned, or the value of a truth literal.
    Mark(bool),
    Method(&'a MethodName),
    Namespace(Namespace),
    Unary(UnaryOp),
    Binary(BinaryOp),
    Array(&'a ArrayRef),
    /// The value of a character literal.
    Unit(u16),
    Byte(i8),
    Short(i16),
    Int(i32),
    Long(i64),
    Text(&'a Units),
    Tree(&'a Tree),
    Trees(&'a [Tree]),
    Cases(&'a [MatchCase]),
}

/// The fields of `tree` in the order of its file and its listing: its position, and at most six more. The trees in them are fewer than the
/// trees that `tree` is, which is the measure of a walk.
pub fn fields_in(tree: &Tree) -> [Field<'_>; 7]
    ensures fields { map field_seen result ≡ fields_of (view tree.now) }
    ensures smaller { size_of_fields (map field_seen result) < size (view tree.now) }
{
    match tree {
        Tree::VarDef {
            position,
            name,
            tpe,
            mutable: mark,
            value,
        } => four(
            *position,
            Field::Name(name.text()),
            Field::Type(tpe),
            Field::Mark(*mark),
            Field::Tree(value),
        ),
        Tree::Skip { position } => alone(*position),
        Tree::Block { position, trees } => one(*position, Field::Trees(trees)),
        Tree::Labeled {
            position,
            label,
            tpe,
            body,
        } => three(
            *position,
            Field::Name(label.text()),
            Field::Type(tpe),
            Field::Tree(body),
        ),
        Tree::Assign {
            position,
            target,
            value,
        } => two(*position, Field::Tree(target), Field::Tree(value)),
        Tree::Return {
            position,
            value,
            label,
        } => two(*position, Field::Tree(value), Field::Name(label.text())),
        Tree::If {
            position,
            condition,
            yes: consequent,
            no: alternative,
            tpe,
        } => four(
            *position,
            Field::Tree(condition),
            Field::Tree(consequent),
            Field::Tree(alternative),
            Field::Type(tpe),
        ),
        Tree::While {
            position,
            condition,
            body,
        } => two(*position, Field::Tree(condition), Field::Tree(body)),
        Tree::DoWhile {
            position,
            body,
            condition,
        } => two(*position, Field::Tree(body), Field::Tree(condition)),
        Tree::TryCatch {
            position,
            block,
            name,
            handler,
            tpe,
        } => four(
            *position,
            Field::Tree(block),
            Field::Name(name.text()),
            Field::Tree(handler),
            Field::Type(tpe),
        ),
        Tree::TryFinally {
            position,
            block,
            finalizer,
        } => two(*position, Field::Tree(block), Field::Tree(finalizer)),
        Tree::Throw { position, value } => one(*position, Field::Tree(value)),
        Tree::Match {
            position,
            selector,
            cases,
            default,
            tpe,
        } => four(
            *position,
            Field::Tree(selector),
            Field::Cases(cases),
            Field::Tree(default),
            Field::Type(tpe),
        ),
        Tree::New {
            position,
            class,
            constructor: method,
            arguments,
        } => three(
            *position,
            Field::Name(class.text()),
            Field::Method(method),
            Field::Trees(arguments),
        ),
        Tree::LoadModule { position, class } => one(*position, Field::Name(class.text())),
        Tree::StoreModule {
            position,
            class,
            value,
        } => two(*position, Field::Name(class.text()), Field::Tree(value)),
        Tree::Select {
            position,
            object: qualifier,
            class,
            field,
            tpe,
        } => four(
            *position,
            Field::Tree(qualifier),
            Field::Name(class.text()),
            Field::Name(field.text()),
            Field::Type(tpe),
        ),
        Tree::SelectStatic {
            position,
            class,
            field,
            tpe,
        } => three(
            *position,
            Field::Name(class.text()),
            Field::Name(field.text()),
            Field::Type(tpe),
        ),
        Tree::Apply {
            position,
            receiver,
            method,
            arguments,
            tpe,
        } => four(
            *position,
            Field::Tree(receiver),
            Field::Method(method),
            Field::Trees(arguments),
            Field::Type(tpe),
        ),
        Tree::ApplyStatically {
            position,
            receiver,
            class,
            namespace,
            method,
            arguments,
            tpe,
        } => six(
            *position,
            Field::Tree(receiver),
            Field::Name(class.text()),
            Field::Namespace(*namespace),
            Field::Method(method),
            Field::Trees(arguments),
            Field::Type(tpe),
        ),
        Tree::ApplyStatic {
            position,
            class,
            namespace,
            method,
            arguments,
            tpe,
        } => five(
            *position,
            Field::Name(class.text()),
            Field::Namespace(*namespace),
            Field::Method(method),
            Field::Trees(arguments),
            Field::Type(tpe),
        ),
        Tree::UnaryOp {
            position,
            operator,
            operand,
        } => two(*position, Field::Unary(*operator), Field::Tree(operand)),
        Tree::BinaryOp {
            position,
            operator,
            left,
            right,
        } => three(
            *position,
            Field::Binary(*operator),
            Field::Tree(left),
            Field::Tree(right),
        ),
        Tree::NewArray {
            position,
            array,
            length,
        } => two(*position, Field::Array(array), Field::Tree(length)),
        Tree::ArrayValue {
            position,
            array,
            items,
        } => two(*position, Field::Array(array), Field::Trees(items)),
        Tree::ArrayLength { position, array } => one(*position, Field::Tree(array)),
        Tree::ArraySelect {
            position,
            array,
            index,
            tpe,
        } => three(
            *position,
            Field::Tree(array),
            Field::Tree(index),
            Field::Type(tpe),
        ),
        Tree::IsInstanceOf {
            position,
            value,
            tpe,
        } => two(*position, Field::Tree(value), Field::Type(tpe)),
        Tree::AsInstanceOf {
            position,
            value,
            tpe,
        } => two(*position, Field::Tree(value), Field::Type(tpe)),
        Tree::Undefined { position } => alone(*position),
        Tree::Null { position } => alone(*position),
        Tree::BooleanLiteral { position, value } => one(*position, Field::Mark(*value)),
        Tree::CharLiteral { position, value } => one(*position, Field::Unit(*value)),
        Tree::ByteLiteral { position, value } => one(*position, Field::Byte(*value)),
        Tree::ShortLiteral { position, value } => one(*position, Field::Short(*value)),
        Tree::IntLiteral { position, value } => one(*position, Field::Int(*value)),
        Tree::LongLiteral { position, value } => one(*position, Field::Long(*value)),
        Tree::StringLiteral { position, value } => one(*position, Field::Text(value)),
        Tree::VarRef {
            position,
            name,
            tpe,
        } => two(*position, Field::Name(name.text()), Field::Type(tpe)),
        Tree::This { position, tpe } => one(*position, Field::Type(tpe)),
        Tree::Log { position, value } => one(*position, Field::Tree(value)),
    }
}

// A position with as many fields behind it.
fn alone<'t>(position: Position) -> [Field<'t>; 7]
    ensures { map field_seen result ≡ seven position no_field no_field no_field no_field no_field no_field }
{
    [
        Field::Position(position),
        Field::None,
        Field::None,
        Field::None,
        Field::None,
        Field::None,
        Field::None,
    ]
}

fn one<'t>(position: Position, first: Field<'t>) -> [Field<'t>; 7]
    ensures { map field_seen result ≡ seven position (field_seen first.entry) no_field no_field no_field no_field no_field }
{
    [
        Field::Position(position),
        first,
        Field::None,
        Field::None,
        Field::None,
        Field::None,
        Field::None,
    ]
}

fn two<'t>(position: Position, first: Field<'t>, second: Field<'t>) -> [Field<'t>; 7]
    ensures { map field_seen result ≡ seven position (field_seen first.entry) (field_seen second.entry) no_field no_field no_field no_field }
{
    [
        Field::Position(position),
        first,
        second,
        Field::None,
        Field::None,
        Field::None,
        Field::None,
    ]
}

fn three<'t>(
    position: Position,
    first: Field<'t>,
    second: Field<'t>,
    third: Field<'t>,
) -> [Field<'t>; 7]
    ensures { map field_seen result ≡ seven position (field_seen first.entry) (field_seen second.entry) (field_seen third.entry) no_field no_field no_field }
{
    [
        Field::Position(position),
        first,
        second,
        third,
        Field::None,
        Field::None,
        Field::None,
    ]
}

fn four<'t>(
    position: Position,
    first: Field<'t>,
    second: Field<'t>,
    third: Field<'t>,
    fourth: Field<'t>,
) -> [Field<'t>; 7]
    ensures { map field_seen result ≡ seven position (field_seen first.entry) (field_seen second.entry) (field_seen third.entry) (field_seen fourth.entry) no_field no_field }
{
    [
        Field::Position(position),
        first,
        second,
        third,
        fourth,
        Field::None,
        Field::None,
    ]
}

fn five<'t>(
    position: Position,
    first: Field<'t>,
    second: Field<'t>,
    third: Field<'t>,
    fourth: Field<'t>,
    fifth: Field<'t>,
) -> [Field<'t>; 7]
    ensures { map field_seen result ≡ seven position (field_seen first.entry) (field_seen second.entry) (field_seen third.entry) (field_seen fourth.entry) (field_seen fifth.entry) no_field }
{
    [
        Field::Position(position),
        first,
        second,
        third,
        fourth,
        fifth,
        Field::None,
    ]
}

fn six<'t>(
    position: Position,
    first: Field<'t>,
    second: Field<'t>,
    third: Field<'t>,
    fourth: Field<'t>,
    fifth: Field<'t>,
    sixth: Field<'t>,
) -> [Field<'t>; 7]
    ensures { map field_seen result ≡ seven position (field_seen first.entry) (field_seen second.entry) (field_seen third.entry) (field_seen fourth.entry) (field_seen fifth.entry) (field_seen sixth.entry) }
{
    [
        Field::Position(position),
        first,
        second,
        third,
        fourth,
        fifth,
        sixth,
    ]
}
