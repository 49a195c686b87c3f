// What a tree asks for.
use sj_names::{ClassName, FieldName, Items};
use sj_trees::IrType;

/// A type that is to be a subtype of another.
#[derive(Drop)]
pub struct Fit {
    pub sub: IrType,
    pub above: IrType,
}

/// A field that a tree names: its class, its name and static mark, the type that is written, and whether it is the object's own in a
/// constructor of the class.
#[derive(Drop)]
pub struct FieldUse {
    pub class: ClassName,
    pub name: FieldName,
    pub is_static: bool,
    pub tpe: IrType,
    pub is_own: bool,
}

/// The conditions of a tree: whether those hold that need no question, and the subtypes and the field that it asks for.
#[derive(Drop)]
pub struct Row {
    pub holds: bool,
    pub fits: Items<Fit>,
    pub field: Option<FieldUse>,
}

/// What the check of a tree gives: the number of the tree behind it, and whether what it names may be assigned to.
#[derive(Clone, Copy)]
pub struct Checked {
    pub next: u32,
    pub settable: bool,
}
