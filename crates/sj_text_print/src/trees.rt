// Trees.
ghost use Rattle.std.specs.Prelude.{◌≡◌, OnOk, codes, map};
ghost use Rattle.js_tree.specs.Written.{put, ◌▸◌, put_more, put_separated};
ghost use Rattle.sj_trees.specs.View.{view, terms_view, cases_view};
ghost use Rattle.tree_fields.specs.Fields.{field_seen};
ghost use Rattle.sj_text_print.specs.TreeFields.{put_field, put_fields};
ghost use Rattle.sj_text_spec.specs.Texts.{put_bracketed, put_list, put_integer, put_tree, put_trees, put_cases};

use crate::parts::{
    array_part, binary_part, integer_part, mark_part, method_part, name_part, namespace_part,
    natural_part, text_part, type_part, unary_part,
};
use crate::words::word_of;
use crate::writing::{append_integer, open};
use sj_names::NoMemory;
use sj_trees::{MatchCase, Tree};
use std::alloc::Global;
use text_print::append;
use tree_fields::{Field, fields_in};

/// Appends numbers with a space in front of each.
fn append_more_keys(out: &mut Vec<u8>, keys: &[i32]) -> Result<(), NoMemory>
    ensures { OnOk result (out.new.items ≡ put_more (codes " ") put_integer keys.now out.old.items) }
{
    for key in keys {
        append(out, " ")?;
        append_integer(out, i64::from(*key))?;
    }
    Ok(())
}

/// Appends numbers with a space between each two.
fn append_separated_keys(out: &mut Vec<u8>, keys: &[i32]) -> Result<(), NoMemory>
    ensures { OnOk result (out.new.items ≡ put_separated (codes " ") put_integer keys.now out.old.items) }
{
    match keys {
        [] => Ok(()),
        [first, others @ ..] => {
            append_integer(out, i64::from(*first))?;
            append_more_keys(out, others)
        }
    }
}

/// Appends the keys of a case, in brackets.
fn append_keys(out: &mut Vec<u8>, keys: &[i32]) -> Result<(), NoMemory>
    ensures { OnOk result (out.new.items ≡ put_list put_integer keys.now out.old.items) }
{
    append(out, "[")?;
    append_separated_keys(out, keys)?;
    append(out, "]")
}

/// Appends a tree behind a space.
#[cycle(trees)]
fn tree_part(out: &mut Vec<u8>, alloc: Global, tree: &Tree) -> Result<(), NoMemory>
    ensures { OnOk result (out.new.items ≡ (put (codes " ") ▸ put_tree (view tree.now)) out.old.items) }
{
    append(out, " ")?;
    append_tree(out, alloc, tree)
}

/// Appends trees in brackets, behind a space.
#[cycle(trees)]
fn trees_part(out: &mut Vec<u8>, alloc: Global, trees: &[Tree]) -> Result<(), NoMemory>
    ensures { OnOk result (out.new.items ≡ (put (codes " ") ▸ put_bracketed (put_trees (terms_view trees.now))) out.old.items) }
{
    append(out, " ")?;
    append(out, "[")?;
    append_trees(out, alloc, trees)?;
    append(out, "]")
}

/// Appends trees with a space between each two.
#[cycle(trees)]
fn append_trees(out: &mut Vec<u8>, alloc: Global, trees: &[Tree]) -> Result<(), NoMemory>
    ensures { OnOk result (out.new.items ≡ put_trees (terms_view trees.now) out.old.items) }
{
    match trees {
        [] => Ok(()),
        [first, others @ ..] => {
            append_tree(out, alloc, first)?;
            for each in others {
                tree_part(out, alloc, each)?;
            }
            Ok(())
        }
    }
}

/// Appends cases in brackets, behind a space.
#[cycle(trees)]
fn cases_part(out: &mut Vec<u8>, alloc: Global, cases: &[MatchCase]) -> Result<(), NoMemory>
    ensures { OnOk result (out.new.items ≡ (put (codes " ") ▸ put_bracketed (put_cases (cases_view cases.now))) out.old.items) }
{
    append(out, " ")?;
    append(out, "[")?;
    append_cases(out, alloc, cases)?;
    append(out, "]")
}

/// Appends cases with a space between each two.
#[cycle(trees)]
fn append_cases(out: &mut Vec<u8>, alloc: Global, cases: &[MatchCase]) -> Result<(), NoMemory>
    ensures { OnOk result (out.new.items ≡ put_cases (cases_view cases.now) out.old.items) }
{
    match cases {
        [] => Ok(()),
        [first, others @ ..] => {
            append_case(out, alloc, first)?;
            for each in others {
                append(out, " ")?;
                append_case(out, alloc, each)?;
            }
            Ok(())
        }
    }
}

/// Appends a case: its keys and its tree, in parentheses.
#[cycle(trees)]
fn append_case(out: &mut Vec<u8>, alloc: Global, case: &MatchCase) -> Result<(), NoMemory>
    ensures { OnOk result (out.new.items ≡ (put (codes "(") ▸ put_list put_integer case.now.keys ▸ put (codes " ") ▸ put_tree (view case.now.body) ▸ put (codes ")")) out.old.items) }
{
    append(out, "(")?;
    append_keys(out, case.keys.as_slice())?;
    tree_part(out, alloc, &case.body)?;
    append(out, ")")
}

/// Appends a field of a tree behind a space.
#[cycle(trees)]
fn append_field(out: &mut Vec<u8>, alloc: Global, field: Field<'_>) -> Result<(), NoMemory>
    ensures { OnOk result (out.new.items ≡ put_field (field_seen field.entry) out.old.items) }
{
    match field {
        Field::None | Field::Position(_) => Ok(()),
        Field::Name(name) => name_part(out, name),
        Field::Type(tpe) => type_part(out, alloc, tpe),
        Field::Mark(mark) => mark_part(out, mark),
        Field::Method(method) => method_part(out, alloc, method),
        Field::Namespace(namespace) => namespace_part(out, namespace),
        Field::Unary(operator) => unary_part(out, operator),
        Field::Binary(operator) => binary_part(out, operator),
        Field::Array(array) => array_part(out, alloc, array),
        Field::Unit(unit) => natural_part(out, u64::from(unit)),
        Field::Byte(number) => integer_part(out, i64::from(number)),
        Field::Short(number) => integer_part(out, i64::from(number)),
        Field::Int(number) => integer_part(out, i64::from(number)),
        Field::Long(number) => integer_part(out, number),
        Field::Text(text) => text_part(out, text),
        Field::Tree(tree) => tree_part(out, alloc, tree),
        Field::Trees(trees) => trees_part(out, alloc, trees),
        Field::Cases(cases) => cases_part(out, alloc, cases),
    }
}

/// Appends the fields of a tree.
#[cycle(trees)]
fn append_fields(out: &mut Vec<u8>, alloc: Global, fields: &[Field<'_>]) -> Result<(), NoMemory>
    ensures { OnOk result (out.new.items ≡ put_fields (map field_seen fields.now) out.old.items) }
{
    for field in fields {
        append_field(out, alloc, *field)?;
    }
    Ok(())
}

/// Appends a tree: its word and its fields, in parentheses.
#[cycle(trees)]
pub(crate) fn append_tree(out: &mut Vec<u8>, alloc: Global, tree: &Tree) -> Result<(), NoMemory>
    ensures { OnOk result (out.new.items ≡ put_tree (view tree.now) out.old.items) }
{
    open(out, word_of(tree))?;
    append_fields(out, alloc, &fields_in(tree))?;
    append(out, ")")
}
