// Expressions of the core.
use crate::Callee;
use sj_names::{ArrayRef, ClassName, FieldName, LocalName, Member};
use sj_trees::{BinaryOp, IrType, UnaryOp};
use sj_units::Units;

/// A variable of a method: one of the IR, one that holds an operand, or the one that holds This.
#[derive(Drop)]
pub enum CoreVariable {
    /// A local variable or a parameter of the IR.
    Local(LocalName),
    /// The variable of this number, which holds the value of an operand. They count from 1.
    Numbered(u64),
    /// The receiver of the method.
    Receiver,
}

/// An expression. A contract sees the term that it stands for, `expression_view`.
#[cycle(core_expression)]
pub enum CoreExpression {
    Undefined,
    Null,
    Boolean(bool),
    /// A byte, a short or an int, or a char where its type is char.
    Number(i32),
    Long(i64),
    Text(Units),
    Variable(CoreVariable),
    /// A char as an object that holds it.
    Boxed(Box<CoreExpression>),
    /// The text of a char: its one unit.
    CharText(Box<CoreExpression>),
    /// The text of a value other than a char.
    ValueText(Box<CoreExpression>),
    /// One of two by a condition.
    Choice(Box<CoreExpression>, Box<CoreExpression>, Box<CoreExpression>),
    /// A call of a static method with its arguments.
    StaticCall(Member, Vec<CoreExpression>),
    /// A field of an object.
    Field(Box<CoreExpression>, ClassName, FieldName),
    /// A static field.
    StaticField(ClassName, FieldName),
    /// The one object of a class, which is made where it is asked for first.
    Module(ClassName),
    /// A value that is checked not to be null.
    Checked(Box<CoreExpression>),
    /// A new object of the member's class, on which the member, a constructor, runs with these arguments.
    Made(Member, Vec<CoreExpression>),
    /// A call on a receiver, with these arguments.
    ReceiverCall(Callee, Box<CoreExpression>, Vec<CoreExpression>),
    /// Whether a value is an instance of the type.
    Test(IrType, Box<CoreExpression>),
    /// A value that is cast to the type.
    Cast(IrType, Box<CoreExpression>),
    /// A new array of this type and length.
    NewArray {
        array: ArrayRef,
        length: Box<CoreExpression>,
    },
    /// A new array of this type with these items.
    Array {
        array: ArrayRef,
        items: Vec<CoreExpression>,
    },
    /// The length of an array.
    Length {
        array: Box<CoreExpression>,
    },
    /// The element of an array at an index.
    Element {
        array: Box<CoreExpression>,
        index: Box<CoreExpression>,
    },
    Unary(UnaryOp, Box<CoreExpression>),
    Binary(BinaryOp, Box<CoreExpression>, Box<CoreExpression>),
}

impl Drop for CoreExpression {
    #[cycle(core_expression)]
    fn drop(self) {
        match self {
            CoreExpression::Undefined
            | CoreExpression::Null
            | CoreExpression::Boolean(_)
            | CoreExpression::Number(_)
            | CoreExpression::Long(_) => {}
            CoreExpression::Text(_one) => {}
            CoreExpression::Variable(_one) => {}
            CoreExpression::Boxed(_one) => {}
            CoreExpression::CharText(_one) => {}
            CoreExpression::ValueText(_one) => {}
            CoreExpression::Choice(_one, _two, _three) => {}
            CoreExpression::StaticCall(_one, _two) => {}
            CoreExpression::Field(_one, _two, _three) => {}
            CoreExpression::StaticField(_one, _two) => {}
            CoreExpression::Module(_one) => {}
            CoreExpression::Checked(_one) => {}
            CoreExpression::Made(_one, _two) => {}
            CoreExpression::ReceiverCall(_one, _two, _three) => {}
            CoreExpression::Test(_one, _two) => {}
            CoreExpression::Cast(_one, _two) => {}
            CoreExpression::NewArray {
                array: _one,
                length: _two,
            } => {}
            CoreExpression::Array {
                array: _one,
                items: _two,
            } => {}
            CoreExpression::Length { array: _one } => {}
            CoreExpression::Element {
                array: _one,
                index: _two,
            } => {}
            CoreExpression::Unary(_, _one) => {}
            CoreExpression::Binary(_, _one, _two) => {}
        }
    }
}
