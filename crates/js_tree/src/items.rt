//! Items of a module, the pieces that classes own, and modules.
use crate::bodies::JsBody;
use crate::expressions::JsExpr;
use sj_names::{ClassName, Items, Text};
use std::rc::Rc;

/// A property of an object literal.
#[derive(Drop)]
pub struct ObjectProperty {
    pub name: Text,
    pub value: JsExpr,
}

/// A member of a class.
#[derive(Drop)]
pub enum ClassMember {
    /// `constructor(x, ..) { S }`
    Constructor {
        parameters: Items<Text>,
        body: JsBody,
    },
    /// `p(x, ..) { S }`
    Method {
        name: Text,
        parameters: Items<Text>,
        body: JsBody,
    },
}

/// An item of a module. A contract sees the term that it stands for, `item_view`.
pub enum JsItem {
    /// `const x = e;`
    Const {
        name: Text,
        value: JsExpr,
    },
    /// `const x = {p: e, ..};`
    ConstObject {
        name: Text,
        properties: Vec<ObjectProperty>,
    },
    /// `let x = e;`
    Let {
        name: Text,
        value: JsExpr,
    },
    /// `e;`
    Expression(JsExpr),
    /// `function x(x, ..) { S }`
    Function {
        name: Text,
        parameters: Items<Text>,
        body: JsBody,
    },
    /// `class x { members }`
    Class {
        name: Text,
        members: Vec<ClassMember>,
    },
    /// `class x extends x { members }`
    Subclass {
        name: Text,
        parent: Text,
        members: Vec<ClassMember>,
    },
}

impl Drop for JsItem {
    fn drop(self) {
        match self {
            JsItem::Const {
                name: _name,
                value: _value,
            } => {}
            JsItem::ConstObject {
                name: _name,
                properties: _properties,
            } => {}
            JsItem::Let {
                name: _name,
                value: _value,
            } => {}
            JsItem::Expression(_one) => {}
            JsItem::Function {
                name: _name,
                parameters: _parameters,
                body: _body,
            } => {}
            JsItem::Class {
                name: _name,
                members: _members,
            } => {}
            JsItem::Subclass {
                name: _name,
                parent: _parent,
                members: _members,
            } => {}
        }
    }
}

/// A binding at the top of a module, with the class that owns it.
#[derive(Drop)]
pub struct Binding {
    pub owner: ClassName,
    pub name: Text,
}

/// An item that a class owns, the name that it declares, and the bindings that it uses, once each in order of first use.
#[derive(Drop)]
pub struct JsPiece {
    pub owner: ClassName,
    pub name: Text,
    pub uses: Items<Binding>,
    pub item: Rc<JsItem>,
}

/// The emitted function of a member: all its parameters, its statements, and the bindings that these use, once each in order of
/// first use.
#[derive(Drop)]
pub struct JsMember {
    pub params: Items<Text>,
    pub body: JsBody,
    pub uses: Items<Binding>,
}

/// A line `import { a, b } from "./FILE";`
#[derive(Drop)]
pub struct JsImport {
    pub names: Items<Text>,
    pub file: Text,
}

/// A module: its import lines, its items, and the names of its export line, of which there is one where there are names. A copy of
/// an item is shared with the piece that it comes from.
#[derive(Drop)]
pub struct JsModule {
    pub imports: Items<JsImport>,
    pub items: Vec<Rc<JsItem>>,
    pub exports: Items<Text>,
}
