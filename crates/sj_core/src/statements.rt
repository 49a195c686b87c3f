// Statements of the core.
use crate::{CoreExpression, CoreVariable};
use sj_names::{ClassName, FieldName, Items, LabelName};
use sj_trees::{IrType, Position};

/// A statement: first the position of the tree that it was written for, if its line has one. A contract sees the term that it stands for,
/// `statement_view`.
#[cycle(core_statement)]
pub enum CoreStatement {
    /// A variable that keeps its first value.
    Constant {
        position: Option<Position>,
        variable: CoreVariable,
        value: CoreExpression,
    },
    /// A variable with its first value.
    Define {
        position: Option<Position>,
        variable: CoreVariable,
        value: CoreExpression,
    },
    /// A variable without a value.
    Declare {
        position: Option<Position>,
        variable: CoreVariable,
    },
    Assign {
        position: Option<Position>,
        variable: CoreVariable,
        value: CoreExpression,
    },
    /// An expression whose value isn't used.
    Evaluate {
        position: Option<Position>,
        value: CoreExpression,
    },
    Return {
        position: Option<Position>,
        value: CoreExpression,
    },
    /// A text is logged as a line.
    Log {
        position: Option<Position>,
        value: CoreExpression,
    },
    /// A field of an object is set: the object, the class and the name of the field, and the value.
    AssignField {
        position: Option<Position>,
        object: CoreExpression,
        class: ClassName,
        field: FieldName,
        value: CoreExpression,
    },
    /// A static field is set.
    AssignStatic {
        position: Option<Position>,
        class: ClassName,
        field: FieldName,
        value: CoreExpression,
    },
    /// An element of an array is set: the type of the elements, the array, the index and the value.
    AssignElement {
        position: Option<Position>,
        tpe: IrType,
        array: CoreExpression,
        index: CoreExpression,
        value: CoreExpression,
    },
    /// The one object of a class is stored.
    StoreModule {
        position: Option<Position>,
        class: ClassName,
        value: CoreExpression,
    },
    Throw {
        position: Option<Position>,
        value: CoreExpression,
    },
    /// The labelled block ends.
    Leave {
        position: Option<Position>,
        label: LabelName,
    },
    /// The nearest loop or switch ends.
    Break {
        position: Option<Position>,
    },
    /// A choice: the condition, and the statements of both branches.
    If {
        position: Option<Position>,
        test: CoreExpression,
        yes: Vec<CoreStatement>,
        no: Vec<CoreStatement>,
    },
    /// A loop that tests in front.
    While {
        position: Option<Position>,
        test: CoreExpression,
        body: Vec<CoreStatement>,
    },
    /// A loop that a break alone ends.
    Loop {
        position: Option<Position>,
        body: Vec<CoreStatement>,
    },
    /// A block that a `Leave` may end.
    Labeled {
        position: Option<Position>,
        label: LabelName,
        body: Vec<CoreStatement>,
    },
    /// A choice by a number: the selector, the cases and the default.
    Switch {
        position: Option<Position>,
        selector: CoreExpression,
        cases: Vec<CoreCase>,
        default: Vec<CoreStatement>,
    },
    /// What the one block throws is caught under a name, for the other.
    Try {
        position: Option<Position>,
        block: Vec<CoreStatement>,
        variable: CoreVariable,
        handler: Vec<CoreStatement>,
    },
    /// However the one block ends, the other runs behind it.
    Finally {
        position: Option<Position>,
        block: Vec<CoreStatement>,
        finalizer: Vec<CoreStatement>,
    },
}

impl Drop for CoreStatement {
    #[cycle(core_statement)]
    fn drop(self) {
        match self {
            CoreStatement::Constant {
                position: _,
                variable: _variable,
                value: _value,
            } => {}
            CoreStatement::Define {
                position: _,
                variable: _variable,
                value: _value,
            } => {}
            CoreStatement::Declare {
                position: _,
                variable: _variable,
            } => {}
            CoreStatement::Assign {
                position: _,
                variable: _variable,
                value: _value,
            } => {}
            CoreStatement::Evaluate {
                position: _,
                value: _value,
            } => {}
            CoreStatement::Return {
                position: _,
                value: _value,
            } => {}
            CoreStatement::Log {
                position: _,
                value: _value,
            } => {}
            CoreStatement::AssignField {
                position: _,
                object: _object,
                class: _class,
                field: _field,
                value: _value,
            } => {}
            CoreStatement::AssignStatic {
                position: _,
                class: _class,
                field: _field,
                value: _value,
            } => {}
            CoreStatement::AssignElement {
                position: _,
                tpe: _one,
                array: _two,
                index: _three,
                value: _four,
            } => {}
            CoreStatement::StoreModule {
                position: _,
                class: _class,
                value: _value,
            } => {}
            CoreStatement::Throw {
                position: _,
                value: _value,
            } => {}
            CoreStatement::Leave {
                position: _,
                label: _label,
            } => {}
            CoreStatement::Break { position: _ } => {}
            CoreStatement::If {
                position: _,
                test: _test,
                yes: _yes,
                no: _no,
            } => {}
            CoreStatement::While {
                position: _,
                test: _test,
                body: _body,
            } => {}
            CoreStatement::Loop {
                position: _,
                body: _body,
            } => {}
            CoreStatement::Labeled {
                position: _,
                label: _label,
                body: _body,
            } => {}
            CoreStatement::Switch {
                position: _,
                selector: _selector,
                cases: _cases,
                default: _default,
            } => {}
            CoreStatement::Try {
                position: _,
                block: _block,
                variable: _variable,
                handler: _handler,
            } => {}
            CoreStatement::Finally {
                position: _,
                block: _block,
                finalizer: _finalizer,
            } => {}
        }
    }
}

/// A case of a switch: the numbers that choose it, and its statements.
#[derive(Drop)]
#[cycle(core_statement)]
pub struct CoreCase {
    pub keys: Items<i32>,
    pub body: Vec<CoreStatement>,
}
