// Types and codes.
ghost use Rattle.std.specs.Prelude.{◌≡◌};
ghost use Rattle.sj_read_spec.specs.Codes.{reserved_trees, kinds, reserved_kinds, member_tags, reserved_members};
ghost use Rattle.sj_trees.specs.Forms.{among, form_codes};
ghost use Rattle.sj_read_spec.specs.Types.{coded, code_at, namespace_at, type_of, type_at};
ghost use Rattle.sj_read_spec.specs.Trees.{unary_at, binary_at};
ghost use Rattle.sj_read_trees.specs.Stops.{Gives};

use crate::fields::byte_of;
use crate::names::NameEntry;
use crate::references::array_reference_of;
use crate::stops::{Stop, bad};
use crate::tables::class_name_of;
use sj_names::Namespace;
use sj_read_spec::{
    MemberTag, kind_with, namespace_with, plain_type, reserved_kind, reserved_member,
    reserved_namespace, reserved_operator, reserved_tree, reserved_type,
};
use sj_trees::{BinaryOp, ClassKind, Code, Form, IrType, Reserved, UnaryOp};

// What a code stands for that begins at `front`.
fn coded_of<'a, T: Drop>(
    meaning: Option<T>,
    reserved: Option<Reserved>,
    front: &[u8],
    rest: &'a [u8],
) -> Result<(T, &'a [u8]), Stop>
    ensures { Gives (λ x. (x.0, x.1.now)) result (coded meaning reserved front.now rest.now) }
{
    match (meaning, reserved) {
        (Some(value), _) => Ok((value, rest)),
        (None, Some(form)) => Err(bad(Code::Unsupported(form), front)),
        (None, None) => Err(bad(Code::BadTag, front)),
    }
}

// The form of a tree.
pub fn tag_of(bytes: &[u8]) -> Result<(Form, &[u8]), Stop>
    ensures { Gives (λ x. (x.0, x.1.now)) result (code_at (among form_codes) (among reserved_trees) bytes.now) }
{
    let (code, rest) = byte_of(bytes)?;
    coded_of(Form::from_code(code), reserved_tree(code), bytes, rest)
}

/// The kind of a member.
pub fn member_tag_of(bytes: &[u8]) -> Result<(MemberTag, &[u8]), Stop>
    ensures { Gives (λ x. (x.0, x.1.now)) result (code_at (among member_tags) (among reserved_members) bytes.now) }
{
    let (code, rest) = byte_of(bytes)?;
    coded_of(
        MemberTag::from_code(code),
        reserved_member(code),
        bytes,
        rest,
    )
}

/// The kind of a class.
pub fn kind_of(bytes: &[u8]) -> Result<(ClassKind, &[u8]), Stop>
    ensures { Gives (λ x. (x.0, x.1.now)) result (code_at (among kinds) (among reserved_kinds) bytes.now) }
{
    let (code, rest) = byte_of(bytes)?;
    coded_of(kind_with(code), reserved_kind(code), bytes, rest)
}

/// A namespace.
pub fn namespace_of(bytes: &[u8]) -> Result<(Namespace, &[u8]), Stop>
    ensures { Gives (λ x. (x.0, x.1.now)) result (namespace_at bytes.now) }
{
    let (code, rest) = byte_of(bytes)?;
    coded_of(namespace_with(code), reserved_namespace(code), bytes, rest)
}

// An operator with one operand.
pub fn unary_of(bytes: &[u8]) -> Result<(UnaryOp, &[u8]), Stop>
    ensures { Gives (λ x. (x.0, x.1.now)) result (unary_at bytes.now) }
{
    let (code, rest) = byte_of(bytes)?;
    coded_of(
        UnaryOp::from_code(code),
        reserved_operator(code),
        bytes,
        rest,
    )
}

// An operator with two operands.
pub fn binary_of(bytes: &[u8]) -> Result<(BinaryOp, &[u8]), Stop>
    ensures { Gives (λ x. (x.0, x.1.now)) result (binary_at bytes.now) }
{
    let (code, rest) = byte_of(bytes)?;
    coded_of(
        BinaryOp::from_code(code),
        reserved_operator(code),
        bytes,
        rest,
    )
}

/// A type.
#[tactic(auto, unfolding(sj_read_spec::specs::Types::type_of))]
pub fn type_of<'a>(names: &[NameEntry], bytes: &'a [u8]) -> Result<(IrType, &'a [u8]), Stop>
    ensures { Gives (λ x. (x.0, x.1.now)) result (type_at names.now bytes.now) }
{
    let (code, rest) = byte_of(bytes)?;
    if code == 12 {
        let (class, rest) = class_name_of(names, rest)?;
        return Ok((IrType::of_class(class), rest));
    }
    if code == 13 {
        let (array, rest) = array_reference_of(names, rest)?;
        return Ok((IrType::Array(array), rest));
    }
    coded_of(plain_type(code), reserved_type(code), bytes, rest)
}
