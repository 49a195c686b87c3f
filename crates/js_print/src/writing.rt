//! What puts bytes behind those that are there.
ghost use Rattle.std.specs.Prelude.{◌≡◌, ◌∷◌, OnOk, codes};
ghost use Rattle.js_tree.specs.Written.{put, put_separated, put_more, indent};
ghost use Rattle.js_tree.specs.Texts.{put_integer, put_number, put_big, put_boolean, put_name, put_key, put_keys, put_parameters};

use sj_names::{NoMemory, Text};
use text_print::{append, append_decimal};

// Appends an integer with `suffix` behind its digits, in parentheses where it is negative.
fn append_integer(out: &mut Vec<u8>, integer: i64, suffix: &str) -> Result<(), NoMemory>
    ensures { OnOk result (out.new.items ≡ put_integer suffix.now integer out.old.items) }
{
    if integer < 0 {
        append(out, "(-")?;
        append_decimal(out, integer.unsigned_abs())?;
        append(out, suffix)?;
        append(out, ")")
    } else {
        append_decimal(out, integer.unsigned_abs())?;
        append(out, suffix)
    }
}

// Appends a Number.
pub(crate) fn append_number(out: &mut Vec<u8>, number: i32) -> Result<(), NoMemory>
    ensures { OnOk result (out.new.items ≡ put_number number out.old.items) }
{
    append_integer(out, i64::from(number), "")
}

// Appends a BigInt.
pub(crate) fn append_big(out: &mut Vec<u8>, number: i64) -> Result<(), NoMemory>
    ensures { OnOk result (out.new.items ≡ put_big number out.old.items) }
{
    append_integer(out, number, "n")
}

// Appends `true` or `false`.
pub(crate) fn append_boolean(out: &mut Vec<u8>, value: bool) -> Result<(), NoMemory>
    ensures { OnOk result (out.new.items ≡ put_boolean value out.old.items) }
{
    append(out, if value { "true" } else { "false" })
}

// Appends two spaces for each level.
#[tactic(auto, using(crate::proofs::Indents::no_level, crate::proofs::Indents::one_level_more))]
pub(crate) fn append_indent(out: &mut Vec<u8>, level: usize) -> Result<(), NoMemory>
    ensures { OnOk result (out.new.items ≡ put (indent level) out.old.items) }
{
    for done in 0..level {
        append(out, "  ")?;
    }
    Ok(())
}

// Appends names with a comma and a space between them.
pub(crate) fn append_names(out: &mut Vec<u8>, names: &[Text]) -> Result<(), NoMemory>
    ensures { OnOk result (out.new.items ≡ put_separated (codes ", ") put_name names.now out.old.items) }
{
    match names {
        [] => Ok(()),
        [first, others @ ..] => {
            append(out, first.as_str())?;
            append_more_names(out, others)
        }
    }
}

// Appends names with a comma and a space in front of each.
fn append_more_names(out: &mut Vec<u8>, names: &[Text]) -> Result<(), NoMemory>
    ensures { OnOk result (out.new.items ≡ put_more (codes ", ") put_name names.now out.old.items) }
{
    for name in names {
        append(out, ", ")?;
        append(out, name.as_str())?;
    }
    Ok(())
}

// Appends a line feed and two spaces for each level.
#[tactic(auto, using(crate::proofs::Indents::line_break))]
fn append_line_break(out: &mut Vec<u8>, level: usize) -> Result<(), NoMemory>
    ensures { OnOk result (out.new.items ≡ put (10 ∷ indent level) out.old.items) }
{
    append(out, "\n")?;
    append_indent(out, level)
}

// Appends a key of a case.
fn append_key(out: &mut Vec<u8>, key: i32) -> Result<(), NoMemory>
    ensures { OnOk result (out.new.items ≡ put_key key out.old.items) }
{
    append(out, "case ")?;
    append_number(out, key)?;
    append(out, ":")
}

// Appends the keys of a case, each on a line of this level.
pub(crate) fn append_keys(out: &mut Vec<u8>, level: usize, keys: &[i32]) -> Result<(), NoMemory>
    ensures { OnOk result (out.new.items ≡ put_keys level keys.now out.old.items) }
{
    match keys {
        [] => Ok(()),
        [first, others @ ..] => {
            append_key(out, *first)?;
            append_more_keys(out, level, others)
        }
    }
}

// Appends keys, in front of each a line break.
fn append_more_keys(out: &mut Vec<u8>, level: usize, keys: &[i32]) -> Result<(), NoMemory>
    ensures { OnOk result (out.new.items ≡ put_more (10 ∷ indent level) put_key keys.now out.old.items) }
{
    for key in keys {
        append_line_break(out, level)?;
        append_key(out, *key)?;
    }
    Ok(())
}

// Appends parameters, in parentheses.
pub(crate) fn append_parameters(out: &mut Vec<u8>, parameters: &[Text]) -> Result<(), NoMemory>
    ensures { OnOk result (out.new.items ≡ put_parameters parameters.now out.old.items) }
{
    append(out, "(")?;
    append_names(out, parameters)?;
    append(out, ")")
}
