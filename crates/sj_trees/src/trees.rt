// The trees of a method's body.
use crate::{BinaryOp, IrType, Position, UnaryOp};
use sj_names::{
    ArrayRef, ClassName, FieldName, Items, LabelName, LocalName, MethodName, Namespace,
};
use sj_units::Units;

/// A tree of the IR. Each form has its position first, and then its parts in the order of the file format.
#[cycle(tree)]
pub enum Tree {
    /// A definition of a local variable: its name, its type, whether it may be assigned, and its first value.
    VarDef {
        position: Position,
        name: LocalName,
        tpe: IrType,
        mutable: bool,
        value: Box<Tree>,
    },
    /// No statement.
    Skip {
        position: Position,
    },
    /// Statements in a row; the last is the value.
    Block {
        position: Position,
        trees: Vec<Tree>,
    },
    /// A block to which a `Return` may go: its label, its type and its body.
    Labeled {
        position: Position,
        label: LabelName,
        tpe: IrType,
        body: Box<Tree>,
    },
    /// An assignment: what is set, and the new value.
    Assign {
        position: Position,
        target: Box<Tree>,
        value: Box<Tree>,
    },
    /// A jump with a value to the end of the label's block.
    Return {
        position: Position,
        value: Box<Tree>,
        label: LabelName,
    },
    /// A choice: the condition, both branches and the type.
    If {
        position: Position,
        condition: Box<Tree>,
        yes: Box<Tree>,
        no: Box<Tree>,
        tpe: IrType,
    },
    /// A loop that tests in front: the condition and the body.
    While {
        position: Position,
        condition: Box<Tree>,
        body: Box<Tree>,
    },
    /// A loop that tests behind: the body and the condition.
    DoWhile {
        position: Position,
        body: Box<Tree>,
        condition: Box<Tree>,
    },
    /// A block, the variable of what is caught, its handler, and the type.
    TryCatch {
        position: Position,
        block: Box<Tree>,
        name: LocalName,
        handler: Box<Tree>,
        tpe: IrType,
    },
    /// A block, and what runs after it in any case.
    TryFinally {
        position: Position,
        block: Box<Tree>,
        finalizer: Box<Tree>,
    },
    /// A throw of a value.
    Throw {
        position: Position,
        value: Box<Tree>,
    },
    /// A choice by a number: the selector, the cases, the default and the type.
    Match {
        position: Position,
        selector: Box<Tree>,
        cases: Vec<MatchCase>,
        default: Box<Tree>,
        tpe: IrType,
    },
    /// A new object: its class, the constructor and the arguments.
    New {
        position: Position,
        class: ClassName,
        constructor: MethodName,
        arguments: Vec<Tree>,
    },
    /// The instance of a module class.
    LoadModule {
        position: Position,
        class: ClassName,
    },
    /// The instance of a module class is set.
    StoreModule {
        position: Position,
        class: ClassName,
        value: Box<Tree>,
    },
    /// A field of an object: the object, the field's class, its name and its type.
    Select {
        position: Position,
        object: Box<Tree>,
        class: ClassName,
        field: FieldName,
        tpe: IrType,
    },
    /// A static field: its class, its name and its type.
    SelectStatic {
        position: Position,
        class: ClassName,
        field: FieldName,
        tpe: IrType,
    },
    /// A call that the receiver's class decides.
    Apply {
        position: Position,
        receiver: Box<Tree>,
        method: MethodName,
        arguments: Vec<Tree>,
        tpe: IrType,
    },
    /// A call on a receiver of the method that the named class has.
    ApplyStatically {
        position: Position,
        receiver: Box<Tree>,
        class: ClassName,
        namespace: Namespace,
        method: MethodName,
        arguments: Vec<Tree>,
        tpe: IrType,
    },
    /// A call of a static method.
    ApplyStatic {
        position: Position,
        class: ClassName,
        namespace: Namespace,
        method: MethodName,
        arguments: Vec<Tree>,
        tpe: IrType,
    },
    /// An operator and its operand.
    UnaryOp {
        position: Position,
        operator: UnaryOp,
        operand: Box<Tree>,
    },
    /// An operator and its operands, left and right.
    BinaryOp {
        position: Position,
        operator: BinaryOp,
        left: Box<Tree>,
        right: Box<Tree>,
    },
    /// A new array of zeros: its reference and its length.
    NewArray {
        position: Position,
        array: ArrayRef,
        length: Box<Tree>,
    },
    /// A new array of the items.
    ArrayValue {
        position: Position,
        array: ArrayRef,
        items: Vec<Tree>,
    },
    /// The length of an array.
    ArrayLength {
        position: Position,
        array: Box<Tree>,
    },
    /// An item of an array: the array, the index and the item's type.
    ArraySelect {
        position: Position,
        array: Box<Tree>,
        index: Box<Tree>,
        tpe: IrType,
    },
    /// Whether a value is of a type.
    IsInstanceOf {
        position: Position,
        value: Box<Tree>,
        tpe: IrType,
    },
    /// A cast of a value to a type.
    AsInstanceOf {
        position: Position,
        value: Box<Tree>,
        tpe: IrType,
    },
    /// The undefined value.
    Undefined {
        position: Position,
    },
    /// The null value.
    Null {
        position: Position,
    },
    /// A truth value.
    BooleanLiteral {
        position: Position,
        value: bool,
    },
    /// A 16-bit unit.
    CharLiteral {
        position: Position,
        value: u16,
    },
    /// An 8-bit number.
    ByteLiteral {
        position: Position,
        value: i8,
    },
    /// A 16-bit number.
    ShortLiteral {
        position: Position,
        value: i16,
    },
    /// A 32-bit number.
    IntLiteral {
        position: Position,
        value: i32,
    },
    /// A 64-bit number.
    LongLiteral {
        position: Position,
        value: i64,
    },
    /// A text of 16-bit units.
    StringLiteral {
        position: Position,
        value: Units,
    },
    /// A local variable or a parameter: its name and its type.
    VarRef {
        position: Position,
        name: LocalName,
        tpe: IrType,
    },
    /// The object on which the method was called, and its type.
    This {
        position: Position,
        tpe: IrType,
    },
    /// A line of output.
    Log {
        position: Position,
        value: Box<Tree>,
    },
}

/// A case of a `Match`: the numbers that choose it, and its tree.
#[derive(Drop)]
#[cycle(tree)]
pub struct MatchCase {
    pub keys: Items<i32>,
    pub body: Tree,
}

impl Drop for Tree {
    #[cycle(tree)]
    fn drop(self) {
        match self {
            Tree::VarDef {
                position: _,
                name: _name,
                tpe: _tpe,
                mutable: _,
                value: _value,
            } => {}
            Tree::Block {
                position: _,
                trees: _trees,
            } => {}
            Tree::Labeled {
                position: _,
                label: _label,
                tpe: _tpe,
                body: _body,
            } => {}
            Tree::Assign {
                position: _,
                target: _target,
                value: _value,
            } => {}
            Tree::Return {
                position: _,
                value: _value,
                label: _label,
            } => {}
            Tree::If {
                position: _,
                condition: _condition,
                yes: _yes,
                no: _no,
                tpe: _tpe,
            } => {}
            Tree::While {
                position: _,
                condition: _condition,
                body: _body,
            } => {}
            Tree::DoWhile {
                position: _,
                body: _body,
                condition: _condition,
            } => {}
            Tree::TryCatch {
                position: _,
                block: _block,
                name: _name,
                handler: _handler,
                tpe: _tpe,
            } => {}
            Tree::TryFinally {
                position: _,
                block: _block,
                finalizer: _finalizer,
            } => {}
            Tree::Throw {
                position: _,
                value: _value,
            } => {}
            Tree::Match {
                position: _,
                selector: _selector,
                cases: _cases,
                default: _default,
                tpe: _tpe,
            } => {}
            Tree::New {
                position: _,
                class: _class,
                constructor: _constructor,
                arguments: _arguments,
            } => {}
            Tree::LoadModule {
                position: _,
                class: _class,
            } => {}
            Tree::StoreModule {
                position: _,
                class: _class,
                value: _value,
            } => {}
            Tree::Select {
                position: _,
                object: _object,
                class: _class,
                field: _field,
                tpe: _tpe,
            } => {}
            Tree::SelectStatic {
                position: _,
                class: _class,
                field: _field,
                tpe: _tpe,
            } => {}
            Tree::Apply {
                position: _,
                receiver: _receiver,
                method: _method,
                arguments: _arguments,
                tpe: _tpe,
            } => {}
            Tree::ApplyStatically {
                position: _,
                receiver: _receiver,
                class: _class,
                namespace: _,
                method: _method,
                arguments: _arguments,
                tpe: _tpe,
            } => {}
            Tree::ApplyStatic {
                position: _,
                class: _class,
                namespace: _,
                method: _method,
                arguments: _arguments,
                tpe: _tpe,
            } => {}
            Tree::UnaryOp {
                position: _,
                operator: _,
                operand: _operand,
            } => {}
            Tree::BinaryOp {
                position: _,
                operator: _,
                left: _left,
                right: _right,
            } => {}
            Tree::NewArray {
                position: _,
                array: _array,
                length: _length,
            } => {}
            Tree::ArrayValue {
                position: _,
                array: _array,
                items: _items,
            } => {}
            Tree::ArrayLength {
                position: _,
                array: _array,
            } => {}
            Tree::ArraySelect {
                position: _,
                array: _array,
                index: _index,
                tpe: _tpe,
            } => {}
            Tree::IsInstanceOf {
                position: _,
                value: _value,
                tpe: _tpe,
            } => {}
            Tree::AsInstanceOf {
                position: _,
                value: _value,
                tpe: _tpe,
            } => {}
            Tree::StringLiteral {
                position: _,
                value: _value,
            } => {}
            Tree::VarRef {
                position: _,
                name: _name,
                tpe: _tpe,
            } => {}
            Tree::This {
                position: _,
                tpe: _tpe,
            } => {}
            Tree::Log {
                position: _,
                value: _value,
            } => {}
            Tree::Skip { position: _ }
            | Tree::Undefined { position: _ }
            | Tree::Null { position: _ }
            | Tree::BooleanLiteral {
                position: _,
                value: _,
            }
            | Tree::CharLiteral {
                position: _,
                value: _,
            }
            | Tree::ByteLiteral {
                position: _,
                value: _,
            }
            | Tree::ShortLiteral {
                position: _,
                value: _,
            }
            | Tree::IntLiteral {
                position: _,
                value: _,
            }
            | Tree::LongLiteral {
                position: _,
                value: _,
            } => {}
        }
    }
}
