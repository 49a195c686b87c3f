// Conditions on types that need no question.
ghost use Rattle.std.specs.Prelude.{◌≡◌, IfOk, codes};
ghost use Rattle.sj_world.specs.Known.{is_same};
ghost use Rattle.sj_trees.specs.View.{view};
ghost use Rattle.sj_trees.specs.SameTypes.{is_same_type};
ghost use Rattle.sj_typing_spec.specs.Rows as rows;
ghost use Rattle.sj_typing_spec.specs.Rules as rules;

use sj_names::{ClassName, MethodName, Namespace, NoMemory, SimpleName};
use sj_trees::{BinaryOp, IrType, Tree, UnaryOp};

/// Whether both are the same type.
pub fn is_type(one: &IrType, other: &IrType) -> bool
    ensures { result ≡ is_same_type one.now other.now }
{
    one.is_same(other)
}

/// Whether a type may be that of a receiver.
pub fn has_receiver(tpe: &IrType) -> bool
    ensures { result ≡ rows.has_receiver tpe.now }
{
    !matches!(tpe, IrType::Null | IrType::Nothing | IrType::NoType)
}

/// Whether a value may be cast to a type.
pub fn is_cast_type(tpe: &IrType) -> bool
    ensures { result ≡ rows.is_cast_type tpe.now }
{
    !matches!(tpe, IrType::Nothing | IrType::Null | IrType::NoType)
}

/// Whether a value may be tested for a type.
pub fn is_test_type(tpe: &IrType) -> bool
    ensures { result ≡ rows.is_test_type tpe.now }
{
    !matches!(
        tpe,
        IrType::Any | IrType::Nothing | IrType::Null | IrType::NoType
    )
}

/// Whether a type is an array's.
pub fn is_array(tpe: &IrType) -> bool
    ensures { result ≡ rows.is_array tpe.now }
{
    matches!(tpe, IrType::Array(_))
}

/// Whether a type is that of an array with items of the other type.
pub fn has_items(tpe: &IrType, item: &IrType) -> Result<bool, NoMemory>
    ensures { IfOk result (λ has. has ≡ rows.has_items tpe.now item.now) }
{
    match tpe {
        IrType::Array(array) => Ok(is_type(&IrType::of_items(array)?, item)),
        _ => Ok(false),
    }
}

/// Whether a value of a type joins to a text.
pub fn is_text(tpe: &IrType) -> bool
    ensures { result ≡ rows.is_text tpe.now }
{
    match tpe {
        IrType::Any | IrType::NoType | IrType::Array(_) => false,
        IrType::Class(name) => name.text() == "java.lang.String",
        _ => true,
    }
}

/// Whether a method of this namespace is static.
pub fn is_static(namespace: Namespace) -> bool
    ensures { result ≡ rows.is_static namespace }
{
    matches!(
        namespace,
        Namespace::PublicStatic | Namespace::PrivateStatic
    )
}

fn is_this(tree: &Tree) -> bool
    ensures { result ≡ rows.is_this (view tree.now) }
{
    matches!(tree, Tree::This { .. })
}

/// Whether a tree may be the receiver of a call in this namespace.
pub fn is_receiver(namespace: Namespace, tree: &Tree) -> bool
    ensures { result ≡ rows.is_receiver namespace (view tree.now) }
{
    match namespace {
        Namespace::Public | Namespace::Private => true,
        Namespace::Constructor => is_this(tree),
        Namespace::PublicStatic | Namespace::PrivateStatic => false,
    }
}

/// Whether a tree is This in a constructor of the class.
pub fn is_own(namespace: Namespace, tree: &Tree, class: &ClassName) -> Result<bool, NoMemory>
    ensures { IfOk result (λ own. own ≡ rows.is_own namespace (view tree.now) class.now) }
{
    match namespace {
        Namespace::Constructor => is_this_of(tree, class),
        _ => Ok(false),
    }
}

fn is_this_of(tree: &Tree, class: &ClassName) -> Result<bool, NoMemory>
    ensures { IfOk result (λ own. own ≡ rows.is_own Namespace.Constructor (view tree.now) class.now) }
{
    match tree {
        Tree::This { tpe, .. } => Ok(is_type(tpe, &IrType::of_class(class.copied()?))),
        _ => Ok(false),
    }
}

/// Whether a name is that of constructors.
pub fn is_init(name: &SimpleName) -> bool
    ensures { result ≡ is_same name.now (codes "<init>") }
{
    name.text() == "<init>"
}

/// The type of a call: that of its result, and any for a reflective call.
pub fn call_type(method: &MethodName) -> Result<IrType, NoMemory>
    ensures { IfOk result (λ t. t ≡ rules.call_type method.now.result) }
{
    match &method.result {
        Some(reference) => Ok(IrType::of_reference(reference)?),
        None => Ok(IrType::Any),
    }
}

/// The type of the operand of an operator.
pub fn unary_operand(op: UnaryOp) -> IrType
    ensures { result ≡ rules.unary_operand op }
{
    match op {
        UnaryOp::BooleanNot => IrType::Boolean,
        UnaryOp::CharToInt => IrType::Char,
        UnaryOp::ByteToInt => IrType::Byte,
        UnaryOp::ShortToInt => IrType::Short,
        UnaryOp::IntToLong | UnaryOp::IntToChar | UnaryOp::IntToByte | UnaryOp::IntToShort => {
            IrType::Int
        }
        UnaryOp::LongToInt => IrType::Long,
    }
}

/// The type of the left operand of an operator.
pub fn left_operand(op: BinaryOp) -> IrType
    ensures { result ≡ rules.left_operand op }
{
    match op {
        BinaryOp::StrictEqual | BinaryOp::StrictNotEqual | BinaryOp::StringConcatenate =>
            IrType::Any,
        BinaryOp::BooleanEqual
        | BinaryOp::BooleanNotEqual
        | BinaryOp::BooleanOr
        | BinaryOp::BooleanAnd => IrType::Boolean,
        BinaryOp::IntAdd
        | BinaryOp::IntSubtract
        | BinaryOp::IntMultiply
        | BinaryOp::IntDivide
        | BinaryOp::IntRemainder
        | BinaryOp::IntOr
        | BinaryOp::IntAnd
        | BinaryOp::IntXor
        | BinaryOp::IntShiftLeft
        | BinaryOp::IntShiftRightLogical
        | BinaryOp::IntShiftRightArithmetic
        | BinaryOp::IntEqual
        | BinaryOp::IntNotEqual
        | BinaryOp::IntLess
        | BinaryOp::IntLessOrEqual
        | BinaryOp::IntGreater
        | BinaryOp::IntGreaterOrEqual => IrType::Int,
        BinaryOp::LongAdd
        | BinaryOp::LongSubtract
        | BinaryOp::LongMultiply
        | BinaryOp::LongDivide
        | BinaryOp::LongRemainder
        | BinaryOp::LongOr
        | BinaryOp::LongAnd
        | BinaryOp::LongXor
        | BinaryOp::LongShiftLeft
        | BinaryOp::LongShiftRightLogical
        | BinaryOp::LongShiftRightArithmetic
        | BinaryOp::LongEqual
        | BinaryOp::LongNotEqual
        | BinaryOp::LongLess
        | BinaryOp::LongLessOrEqual
        | BinaryOp::LongGreater
        | BinaryOp::LongGreaterOrEqual => IrType::Long,
    }
}

/// The type of the right operand of an operator: a long is shifted by an int.
pub fn right_operand(op: BinaryOp) -> IrType
    ensures { result ≡ rules.right_operand op }
{
    match op {
        BinaryOp::LongShiftLeft
        | BinaryOp::LongShiftRightLogical
        | BinaryOp::LongShiftRightArithmetic => IrType::Int,
        _ => left_operand(op),
    }
}
