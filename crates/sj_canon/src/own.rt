// What appends what a tree has of its own.
ghost use Rattle.std.specs.Prelude.{◌≡◌, ◌++◌, OnOk};
ghost use Rattle.tree_parts.specs.Own.{own_seen};
ghost use Rattle.sj_canon.specs.Own as spec;

use crate::names::{namespace_code, put_some_array, put_some_method_name, put_some_type};
use crate::numbers::{put_bytes, put_signed, put_text, put_unit, put_units};
use sj_names::{Namespace, NoMemory};
use sj_trees::{BinaryOp, UnaryOp};
use tree_parts::Own;

/// Appends what a tree has of its own.
#[tactic(auto, unfolding(crate::specs::Own::own_bytes))]
pub fn put_own(out: &mut Vec<u8>, own: &Own<'_>) -> Result<(), NoMemory>
    ensures { OnOk result (out.new.items ≡ out.old.items ++ spec.own_bytes (own_seen own.now)) }
{
    put_codes(out, own)?;
    put_texts(out, own)?;
    put_references(out, own)?;
    put_values(out, own)
}

#[tactic(auto, unfolding(crate::specs::Own::codes_bytes))]
fn put_codes(out: &mut Vec<u8>, own: &Own<'_>) -> Result<(), NoMemory>
    ensures { OnOk result (out.new.items ≡ out.old.items ++ spec.codes_bytes (own_seen own.now)) }
{
    put_bytes(
        out,
        &[
            own.form.code(),
            namespace_or_none(own.namespace),
            unary_or_none(own.unary),
            binary_or_none(own.binary),
            if own.mark { 1 } else { 0 },
        ],
    )
}

fn namespace_or_none(namespace: Option<Namespace>) -> u8
    ensures { result ≡ spec.namespace_or_none namespace }
{
    match namespace {
        None => 0,
        Some(namespace) => namespace_code(namespace),
    }
}

fn unary_or_none(operator: Option<UnaryOp>) -> u8
    ensures { result ≡ spec.unary_or_none operator }
{
    match operator {
        None => 0,
        Some(operator) => operator.code(),
    }
}

fn binary_or_none(operator: Option<BinaryOp>) -> u8
    ensures { result ≡ spec.binary_or_none operator }
{
    match operator {
        None => 0,
        Some(operator) => operator.code(),
    }
}

#[tactic(auto, unfolding(crate::specs::Own::texts_bytes))]
fn put_texts(out: &mut Vec<u8>, own: &Own<'_>) -> Result<(), NoMemory>
    ensures { OnOk result (out.new.items ≡ out.old.items ++ spec.texts_bytes (own_seen own.now)) }
{
    put_text(out, own.text)?;
    put_text(out, own.class)?;
    put_text(out, own.field)
}

#[tactic(auto, unfolding(crate::specs::Own::references_bytes))]
fn put_references(out: &mut Vec<u8>, own: &Own<'_>) -> Result<(), NoMemory>
    ensures { OnOk result (out.new.items ≡ out.old.items ++ spec.references_bytes (own_seen own.now)) }
{
    put_some_method_name(out, own.method)?;
    put_some_array(out, own.array)?;
    put_some_type(out, own.tpe)
}

#[tactic(auto, unfolding(crate::specs::Own::values_bytes))]
fn put_values(out: &mut Vec<u8>, own: &Own<'_>) -> Result<(), NoMemory>
    ensures { OnOk result (out.new.items ≡ out.old.items ++ spec.values_bytes (own_seen own.now)) }
{
    put_unit(out, own.unit)?;
    put_signed(out, own.number)?;
    put_units(out, own.units)
}
