//! Statements of the subset.
use crate::expressions::JsExpr;
use sj_names::{Items, Text};

/// A statement. A contract sees the term that it stands for, `statement_view`.
#[cycle(statement)]
pub enum JsStmt {
    /// `const x = e;`
    Const {
        name: Text,
        value: JsExpr,
    },
    /// `let x = e;`
    Let {
        name: Text,
        value: JsExpr,
    },
    /// `let x;`
    Declare(Text),
    /// `e;`
    Expression(JsExpr),
    /// `x = e;`
    Assign {
        name: Text,
        value: JsExpr,
    },
    /// `e.p = e;`
    AssignProperty {
        object: JsExpr,
        property: Text,
        value: JsExpr,
    },
    /// `e[e] = e;`
    AssignIndex {
        object: JsExpr,
        index: JsExpr,
        value: JsExpr,
    },
    /// `super();`
    SuperCall,
    /// `throw e;`
    Throw(JsExpr),
    /// `return e;`
    Return(JsExpr),
    /// `break;`
    Break,
    /// `break x;`
    BreakTo(Text),
    /// `if (e) { S }`
    If {
        test: JsExpr,
        yes: Vec<JsStmt>,
    },
    /// `if (e) { S } else { S }`
    IfElse {
        test: JsExpr,
        yes: Vec<JsStmt>,
        no: Vec<JsStmt>,
    },
    /// `while (e) { S }`
    While {
        test: JsExpr,
        body: Vec<JsStmt>,
    },
    /// `do { S } while (true);`
    DoForever(Vec<JsStmt>),
    /// `x: { S }`
    Labeled {
        label: Text,
        body: Vec<JsStmt>,
    },
    /// `try { S } catch (x) { S }`
    TryCatch {
        body: Vec<JsStmt>,
        name: Text,
        handler: Vec<JsStmt>,
    },
    /// `try { S } finally { S }`
    TryFinally {
        body: Vec<JsStmt>,
        finalizer: Vec<JsStmt>,
    },
    /// `switch (e) { .. }`, its cases and last the default
    Switch {
        selector: JsExpr,
        cases: Vec<SwitchCase>,
        default: Vec<JsStmt>,
    },
}

impl Drop for JsStmt {
    #[cycle(statement)]
    fn drop(self) {
        match self {
            JsStmt::Const {
                name: _name,
                value: _value,
            } => {}
            JsStmt::Let {
                name: _name,
                value: _value,
            } => {}
            JsStmt::Declare(_one) => {}
            JsStmt::Expression(_one) => {}
            JsStmt::Assign {
                name: _name,
                value: _value,
            } => {}
            JsStmt::AssignProperty {
                object: _object,
                property: _property,
                value: _value,
            } => {}
            JsStmt::AssignIndex {
                object: _object,
                index: _index,
                value: _value,
            } => {}
            JsStmt::Throw(_one) => {}
            JsStmt::Return(_one) => {}
            JsStmt::BreakTo(_one) => {}
            JsStmt::If {
                test: _test,
                yes: _yes,
            } => {}
            JsStmt::IfElse {
                test: _test,
                yes: _yes,
                no: _no,
            } => {}
            JsStmt::While {
                test: _test,
                body: _body,
            } => {}
            JsStmt::DoForever(_one) => {}
            JsStmt::Labeled {
                label: _label,
                body: _body,
            } => {}
            JsStmt::TryCatch {
                body: _body,
                name: _name,
                handler: _handler,
            } => {}
            JsStmt::TryFinally {
                body: _body,
                finalizer: _finalizer,
            } => {}
            JsStmt::Switch {
                selector: _selector,
                cases: _cases,
                default: _default,
            } => {}
            JsStmt::SuperCall | JsStmt::Break => {}
        }
    }
}

/// One case of a `switch`: its keys, one or more, and its block.
#[derive(Drop)]
#[cycle(statement)]
pub struct SwitchCase {
    pub keys: Items<i32>,
    pub body: Vec<JsStmt>,
}
