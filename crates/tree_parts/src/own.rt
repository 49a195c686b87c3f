// What a tree has of its own.
ghost use Rattle.std.specs.Prelude.{◌≡◌, ◌↔◌, IsTrue, option_map};
ghost use Rattle.sj_trees.specs.View.{view};
ghost use Rattle.sj_trees.specs.Forms.{form_code};
ghost use Rattle.tree_parts.specs.Own.{own_of, own_seen, nothing};

use sj_names::{ArrayRef, MethodName, Namespace};
use sj_trees::{BinaryOp, Form, IrType, Tree, UnaryOp};

/// The form of a tree, and what stands in it beside its position and the trees in it: its names, types, operators and literals, each
/// empty where the form has none.
#[derive(Clone, Copy)]
pub struct Own<'a> {
    pub form: Form,
    /// The name of a local or a label.
    pub text: &'a str,
    pub class: &'a str,
    pub field: &'a str,
    pub method: Option<&'a MethodName>,
    pub namespace: Option<Namespace>,
    pub array: Option<&'a ArrayRef>,
    pub tpe: Option<&'a IrType>,
    /// Whether a variable may be assigned, or the value of a truth literal.
    pub mark: bool,
    pub unary: Option<UnaryOp>,
    pub binary: Option<BinaryOp>,
    /// The value of a character literal.
    pub unit: u16,
    /// The value of a literal of a number.
    pub number: i64,
    pub units: &'a [u16],
}

// A form alone.
fn nothing<'a>(form: Form) -> Own<'a>
    ensures { own_seen result ≡ nothing form }
{
    Own {
        form,
        text: "",
        class: "",
        field: "",
        method: None,
        namespace: None,
        array: None,
        tpe: None,
        mark: false,
        unary: None,
        binary: None,
        unit: 0,
        number: 0,
        units: &[],
    }
}

/// What `tree` has of its own.
pub fn own_in(tree: &Tree) -> Own<'_>
    ensures { own_seen result ≡ own_of (view tree.now) }
{
    let plain = nothing(tree.form());
    match tree {
        Tree::VarDef {
            name: text,
            tpe,
            mutable: mark,
            ..
        } => Own {
            text: text.text(),
            tpe: Some(tpe),
            mark: *mark,
            ..plain
        },
        Tree::Labeled {
            label: text,
            tpe,
            ..
        } => Own {
            text: text.text(),
            tpe: Some(tpe),
            ..plain
        },
        Tree::Return { label: text, .. } => Own {
            text: text.text(),
            ..plain
        },
        Tree::If { tpe, .. } => Own {
            tpe: Some(tpe),
            ..plain
        },
        Tree::TryCatch {
            name: text,
            tpe,
            ..
        } => Own {
            text: text.text(),
            tpe: Some(tpe),
            ..plain
        },
        Tree::Match { tpe, .. } => Own {
            tpe: Some(tpe),
            ..plain
        },
        Tree::New {
            class,
            constructor: method,
            ..
        } => Own {
            class: class.text(),
            method: Some(method),
            ..plain
        },
        Tree::LoadModule { class, .. } => Own {
            class: class.text(),
            ..plain
        },
        Tree::StoreModule { class, .. } => Own {
            class: class.text(),
            ..plain
        },
        Tree::Select {
            class,
            field,
            tpe,
            ..
        } => Own {
            class: class.text(),
            field: field.text(),
            tpe: Some(tpe),
            ..plain
        },
        Tree::SelectStatic {
            class,
            field,
            tpe,
            ..
        } => Own {
            class: class.text(),
            field: field.text(),
            tpe: Some(tpe),
            ..plain
        },
        Tree::Apply { method, tpe, .. } => Own {
            method: Some(method),
            tpe: Some(tpe),
            ..plain
        },
        Tree::ApplyStatically {
            class,
            namespace,
            method,
            tpe,
            ..
        } => Own {
            class: class.text(),
            namespace: Some(*namespace),
            method: Some(method),
            tpe: Some(tpe),
            ..plain
        },
        Tree::ApplyStatic {
            class,
            namespace,
            method,
            tpe,
            ..
        } => Own {
            class: class.text(),
            namespace: Some(*namespace),
            method: Some(method),
            tpe: Some(tpe),
            ..plain
        },
        Tree::UnaryOp {
            operator: unary,
            ..
        } => Own {
            unary: Some(*unary),
            ..plain
        },
        Tree::BinaryOp {
            operator: binary,
            ..
        } => Own {
            binary: Some(*binary),
            ..plain
        },
        Tree::NewArray { array, .. } => Own {
            array: Some(array),
            ..plain
        },
        Tree::ArrayValue { array, .. } => Own {
            array: Some(array),
            ..plain
        },
        Tree::ArraySelect { tpe, .. } => Own {
            tpe: Some(tpe),
            ..plain
        },
        Tree::IsInstanceOf { tpe, .. } => Own {
            tpe: Some(tpe),
            ..plain
        },
        Tree::AsInstanceOf { tpe, .. } => Own {
            tpe: Some(tpe),
            ..plain
        },
        Tree::BooleanLiteral { value: mark, .. } => Own {
            mark: *mark,
            ..plain
        },
        Tree::CharLiteral { value: unit, .. } => Own {
            unit: *unit,
            ..plain
        },
        Tree::ByteLiteral { value: number, .. } => Own {
            number: i64::from(*number),
            ..plain
        },
        Tree::ShortLiteral { value: number, .. } => Own {
            number: i64::from(*number),
            ..plain
        },
        Tree::IntLiteral { value: number, .. } => Own {
            number: i64::from(*number),
            ..plain
        },
        Tree::LongLiteral { value: number, .. } => Own {
            number: *number,
            ..plain
        },
        Tree::StringLiteral { value: units, .. } => Own {
            units: units.as_slice(),
            ..plain
        },
        Tree::VarRef {
            name: text,
            tpe,
            ..
        } => Own {
            text: text.text(),
            tpe: Some(tpe),
            ..plain
        },
        Tree::This { tpe, .. } => Own {
            tpe: Some(tpe),
            ..plain
        },
        Tree::Skip { .. }
        | Tree::Block { .. }
        | Tree::Assign { .. }
        | Tree::While { .. }
        | Tree::DoWhile { .. }
        | Tree::TryFinally { .. }
        | Tree::Throw { .. }
        | Tree::ArrayLength { .. }
        | Tree::Undefined { .. }
        | Tree::Null { .. }
        | Tree::Log { .. } => plain,
    }
}

/// Whether both have the same of their own.
pub fn is_same_own(own: &Own<'_>, other: &Own<'_>) -> bool
    ensures { IsTrue result ↔ (own_seen own.now ≡ own_seen other.now) }
{
    are_same_literals(own, other)
        && are_same_names(own, other)
        && are_same_operators(own, other)
        && are_same_references(own, other)
}

fn are_same_literals(own: &Own<'_>, other: &Own<'_>) -> bool
    ensures { IsTrue result ↔ ((form_code own.now.form ≡ form_code other.now.form) × (own.now.mark ≡ other.now.mark) × (own.now.unit ≡ other.now.unit) × (own.now.number ≡ other.now.number) × (own.now.units.now ≡ other.now.units.now)) }
{
    own.form.code() == other.form.code()
        && own.mark == other.mark
        && own.unit == other.unit
        && own.number == other.number
        && own.units == other.units
}

fn are_same_names(own: &Own<'_>, other: &Own<'_>) -> bool
    ensures { IsTrue result ↔ ((own.now.text.now ≡ other.now.text.now) × (own.now.class.now ≡ other.now.class.now) × (own.now.field.now ≡ other.now.field.now)) }
{
    own.text == other.text && own.class == other.class && own.field == other.field
}

fn are_same_operators(own: &Own<'_>, other: &Own<'_>) -> bool
    ensures { IsTrue result ↔ ((own.now.namespace ≡ other.now.namespace) × (own.now.unary ≡ other.now.unary) × (own.now.binary ≡ other.now.binary)) }
{
    own.namespace == other.namespace && own.unary == other.unary && own.binary == other.binary
}

fn are_same_references(own: &Own<'_>, other: &Own<'_>) -> bool
    ensures { IsTrue result ↔ ((option_map (λ t. t.now) own.now.tpe ≡ option_map (λ t. t.now) other.now.tpe) × (option_map (λ g. g.now) own.now.method ≡ option_map (λ g. g.now) other.now.method) × (option_map (λ r. r.now) own.now.array ≡ option_map (λ r. r.now) other.now.array)) }
{
    is_same_type(own.tpe, other.tpe)
        && is_same_method_name(own.method, other.method)
        && is_same_array(own.array, other.array)
}

fn is_same_type(one: Option<&IrType>, other: Option<&IrType>) -> bool
    ensures { IsTrue result ↔ (option_map (λ t. t.now) one.entry ≡ option_map (λ t. t.now) other.entry) }
{
    match (one, other) {
        (Some(one), Some(other)) => one.is_same(other),
        (None, None) => true,
        _ => false,
    }
}

fn is_same_method_name(one: Option<&MethodName>, other: Option<&MethodName>) -> bool
    ensures { IsTrue result ↔ (option_map (λ g. g.now) one.entry ≡ option_map (λ g. g.now) other.entry) }
{
    match (one, other) {
        (Some(one), Some(other)) => one.is_same(other),
        (None, None) => true,
        _ => false,
    }
}

fn is_same_array(one: Option<&ArrayRef>, other: Option<&ArrayRef>) -> bool
    ensures { IsTrue result ↔ (option_map (λ r. r.now) one.entry ≡ option_map (λ r. r.now) other.entry) }
{
    match (one, other) {
        (Some(one), Some(other)) => one.is_same(other),
        (None, None) => true,
        _ => false,
    }
}
