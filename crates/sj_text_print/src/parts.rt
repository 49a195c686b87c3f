// The parts of trees and members that have no tree in them, each with a space in front.
ghost use Rattle.std.specs.Prelude.{◌≡◌, OnOk, codes};
ghost use Rattle.js_tree.specs.Written.{put, ◌▸◌};
ghost use Rattle.js_tree.specs.Texts.{put_text};
ghost use Rattle.sj_text_spec.specs.Texts.{put_name, put_method_name, put_array, put_mark, put_natural, put_integer, put_unary_op, put_binary_op, put_namespace, put_kind, put_type};

use crate::literals::{append_array, append_method_name, append_name};
use crate::writing::{append_integer, append_mark};
use sj_names::{ArrayRef, MethodName, Namespace, NoMemory};
use sj_trees::{BinaryOp, ClassKind, IrType, UnaryOp};
use sj_units::Units;
use std::alloc::Global;
use text_print::{append, append_decimal, append_text};

pub(crate) fn name_part(out: &mut Vec<u8>, name: &str) -> Result<(), NoMemory>
    ensures { OnOk result (out.new.items ≡ (put (codes " ") ▸ put_name name.now) out.old.items) }
{
    append(out, " ")?;
    append_name(out, name)
}

pub(crate) fn method_part(
    out: &mut Vec<u8>,
    alloc: Global,
    name: &MethodName,
) -> Result<(), NoMemory>
    ensures { OnOk result (out.new.items ≡ (put (codes " ") ▸ put_method_name name.now) out.old.items) }
{
    append(out, " ")?;
    append_method_name(out, alloc, name)
}

pub(crate) fn array_part(out: &mut Vec<u8>, alloc: Global, array: &ArrayRef) -> Result<(), NoMemory>
    ensures { OnOk result (out.new.items ≡ (put (codes " ") ▸ put_array array.now) out.old.items) }
{
    append(out, " ")?;
    append_array(out, alloc, array)
}

pub(crate) fn text_part(out: &mut Vec<u8>, text: &Units) -> Result<(), NoMemory>
    ensures { OnOk result (out.new.items ≡ (put (codes " ") ▸ put_text text.now) out.old.items) }
{
    append(out, " ")?;
    append_text(out, text.as_slice())
}

pub(crate) fn mark_part(out: &mut Vec<u8>, mark: bool) -> Result<(), NoMemory>
    ensures { OnOk result (out.new.items ≡ (put (codes " ") ▸ put_mark mark) out.old.items) }
{
    append(out, " ")?;
    append_mark(out, mark)
}

pub(crate) fn natural_part(out: &mut Vec<u8>, number: u64) -> Result<(), NoMemory>
    ensures { OnOk result (out.new.items ≡ (put (codes " ") ▸ put_natural number) out.old.items) }
{
    append(out, " ")?;
    append_decimal(out, number)
}

pub(crate) fn integer_part(out: &mut Vec<u8>, number: i64) -> Result<(), NoMemory>
    ensures { OnOk result (out.new.items ≡ (put (codes " ") ▸ put_integer number) out.old.items) }
{
    append(out, " ")?;
    append_integer(out, number)
}

pub(crate) fn unary_part(out: &mut Vec<u8>, operator: UnaryOp) -> Result<(), NoMemory>
    ensures { OnOk result (out.new.items ≡ (put (codes " ") ▸ put_unary_op operator) out.old.items) }
{
    append(out, " ")?;
    append_decimal(out, u64::from(operator.code()))
}

pub(crate) fn binary_part(out: &mut Vec<u8>, operator: BinaryOp) -> Result<(), NoMemory>
    ensures { OnOk result (out.new.items ≡ (put (codes " ") ▸ put_binary_op operator) out.old.items) }
{
    natural_part(out, u64::from(operator.code()))
}

pub(crate) fn namespace_part(out: &mut Vec<u8>, namespace: Namespace) -> Result<(), NoMemory>
    ensures { OnOk result (out.new.items ≡ (put (codes " ") ▸ put_namespace namespace) out.old.items) }
{
    append(out, " ")?;
    append(
        out,
        match namespace {
            Namespace::Public => "Public",
            Namespace::PublicStatic => "PublicStatic",
            Namespace::Private => "Private",
            Namespace::PrivateStatic => "PrivateStatic",
            Namespace::Constructor => "Constructor",
        },
    )
}

pub(crate) fn kind_part(out: &mut Vec<u8>, kind: ClassKind) -> Result<(), NoMemory>
    ensures { OnOk result (out.new.items ≡ (put (codes " ") ▸ put_kind kind) out.old.items) }
{
    append(out, " ")?;
    append(
        out,
        match kind {
            ClassKind::Class => "Class",
            ClassKind::ModuleClass => "ModuleClass",
            ClassKind::Interface => "Interface",
            ClassKind::HijackedClass => "HijackedClass",
        },
    )
}

fn append_type(out: &mut Vec<u8>, alloc: Global, tpe: &IrType) -> Result<(), NoMemory>
    ensures { OnOk result (out.new.items ≡ put_type tpe.now out.old.items) }
{
    match tpe {
        IrType::Any => append(out, "any"),
        IrType::Nothing => append(out, "nothing"),
        IrType::Undefined => append(out, "undef"),
        IrType::Boolean => append(out, "boolean"),
        IrType::Char => append(out, "char"),
        IrType::Byte => append(out, "byte"),
        IrType::Short => append(out, "short"),
        IrType::Int => append(out, "int"),
        IrType::Long => append(out, "long"),
        IrType::String => append(out, "string"),
        IrType::Null => append(out, "null"),
        IrType::NoType => append(out, "none"),
        IrType::Class(name) => {
            append(out, "(L ")?;
            append_name(out, name.text())?;
            append(out, ")")
        }
        IrType::Array(array) => {
            append(out, "(A ")?;
            append_array(out, alloc, array)?;
            append(out, ")")
        }
    }
}

pub(crate) fn type_part(out: &mut Vec<u8>, alloc: Global, tpe: &IrType) -> Result<(), NoMemory>
    ensures { OnOk result (out.new.items ≡ (put (codes " ") ▸ put_type tpe.now) out.old.items) }
{
    append(out, " ")?;
    append_type(out, alloc, tpe)
}
