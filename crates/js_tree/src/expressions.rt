//! Expressions of the subset.
ghost use Rattle.std.specs.Prelude.{◌≡◌};
ghost use Rattle.js_tree.specs.Targets.{is_apart, is_target, target_view};
ghost use Rattle.js_tree.specs.Views.{expression_view};

use crate::operators::{BinaryOperator, HostFunction, HostOperation, UnaryOperator};
use sj_names::Text;
use sj_units::Units;

/// An expression. A contract sees the term that it stands for, `expression_view`.
pub enum JsExpr {
    /// `null`
    Null,
    /// `true` or `false`
    Boolean(bool),
    /// `(void 0)`
    Undefined,
    /// A Number, as `5` or `(-5)`
    Number(i32),
    /// A BigInt, as `5n` or `(-5n)`
    BigInt(i64),
    /// A string in double quotes
    Text(Units),
    /// A name
    Name(Text),
    /// `this`
    This,
    /// `e.p`
    Property {
        object: Box<JsExpr>,
        property: Text,
    },
    /// `e[e]`
    Index {
        object: Box<JsExpr>,
        index: Box<JsExpr>,
    },
    /// `x(e, ..)`
    Call {
        function: Text,
        arguments: Vec<JsExpr>,
    },
    /// `e.p(e, ..)`
    MethodCall {
        object: Box<JsExpr>,
        property: Text,
        arguments: Vec<JsExpr>,
    },
    /// `new x(e, ..)`
    New {
        class: Text,
        arguments: Vec<JsExpr>,
    },
    /// `new Array(e)`
    NewArray(Box<JsExpr>),
    /// `[e, ..]`
    List(Vec<JsExpr>),
    /// `(e op e)`
    Binary {
        left: Box<JsExpr>,
        operator: BinaryOperator,
        right: Box<JsExpr>,
    },
    /// `(!e)` or `(typeof e)`
    Unary {
        operator: UnaryOperator,
        operand: Box<JsExpr>,
    },
    /// `(e ? e : e)`
    Conditional {
        test: Box<JsExpr>,
        yes: Box<JsExpr>,
        no: Box<JsExpr>,
    },
    /// A fixed function of one argument, as `console.log(e)`
    Host {
        function: HostFunction,
        argument: Box<JsExpr>,
    },
    /// A fixed function of two arguments, as `Math.imul(e, e)`
    HostOfTwo {
        function: HostOperation,
        first: Box<JsExpr>,
        second: Box<JsExpr>,
    },
}

impl Drop for JsExpr {
    fn drop(self) {
        match self {
            JsExpr::Text(_one) => {}
            JsExpr::Name(_one) => {}
            JsExpr::Property {
                object: _object,
                property: _property,
            } => {}
            JsExpr::Index {
                object: _object,
                index: _index,
            } => {}
            JsExpr::Call {
                function: _function,
                arguments: _arguments,
            } => {}
            JsExpr::MethodCall {
                object: _object,
                property: _property,
                arguments: _arguments,
            } => {}
            JsExpr::New {
                class: _class,
                arguments: _arguments,
            } => {}
            JsExpr::NewArray(_one) => {}
            JsExpr::List(_one) => {}
            JsExpr::Binary {
                left: _left,
                operator: _,
                right: _right,
            } => {}
            JsExpr::Unary {
                operator: _,
                operand: _operand,
            } => {}
            JsExpr::Conditional {
                test: _test,
                yes: _yes,
                no: _no,
            } => {}
            JsExpr::Host {
                function: _function,
                argument: _argument,
            } => {}
            JsExpr::HostOfTwo {
                function: _function,
                first: _first,
                second: _second,
            } => {}
            JsExpr::Null
            | JsExpr::Boolean(_)
            | JsExpr::Undefined
            | JsExpr::Number(_)
            | JsExpr::BigInt(_)
            | JsExpr::This => {}
        }
    }
}

/// An expression that stands first in a statement, taken apart where it may be assigned to. A contract sees of it the term of the
/// expression, `target_view`.
#[derive(Drop)]
pub enum JsTarget {
    Name(Text),
    Property {
        object: Box<JsExpr>,
        property: Text,
    },
    Index {
        object: Box<JsExpr>,
        index: Box<JsExpr>,
    },
    /// An expression of any other form.
    Other(JsExpr),
}

impl JsExpr {
    /// The expression as a target.
    pub fn into_target(self) -> JsTarget
        ensures view { expression_view self ≡ target_view result }
        ensures form { is_target (expression_view self) ≡ is_apart result }
    {
        match self {
            JsExpr::Name(name) => JsTarget::Name(name),
            JsExpr::Property { object, property } => JsTarget::Property { object, property },
            JsExpr::Index { object, index } => JsTarget::Index { object, index },
            other => JsTarget::Other(other),
        }
    }
}
