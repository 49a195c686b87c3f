// String literals: names in UTF-8.
ghost use Rattle.std.specs.Prelude.{◌≡◌, ◌<◌, OnOk};
ghost use Rattle.std.specs.Char.{IsScalar};
ghost use Rattle.std.specs.Str.{chars};
ghost use Rattle.js_tree.specs.Written.{put_each};
ghost use Rattle.sj_text_spec.specs.Texts.{put_character, put_name, put_method_name, put_array};

use sj_names::{ArrayRef, MethodName, NoMemory, TypeRef};
use std::alloc::Global;
use text_print::{append, append_unit};

/// Appends the one or two units of a character.
fn append_character(out: &mut Vec<u8>, character: u32) -> Result<(), NoMemory>
    requires { IsScalar character }
    ensures { OnOk result (out.new.items ≡ put_character character out.old.items) }
{
    if character < 0x1_0000 {
        append_unit(out, character as u16)
    } else {
        let above = character - 0x1_0000;
        append_unit(out, (0xd800 + above / 0x400) as u16)?;
        append_unit(out, (0xdc00 + above % 0x400) as u16)
    }
}

/// Appends the characters of a name.
fn append_characters(out: &mut Vec<u8>, name: &str) -> Result<(), NoMemory>
    ensures { OnOk result (out.new.items ≡ put_each put_character (chars name.now) out.old.items) }
{
    for character in name.chars() {
        append_character(out, character as u32)?;
    }
    Ok(())
}

/// Appends a name as a string literal.
pub(crate) fn append_name(out: &mut Vec<u8>, name: &str) -> Result<(), NoMemory>
    ensures { OnOk result (out.new.items ≡ put_name name.now out.old.items) }
{
    append(out, "\"")?;
    append_characters(out, name)?;
    append(out, "\"")
}

/// Appends the spelling of a method name as a string literal.
pub(crate) fn append_method_name(
    out: &mut Vec<u8>,
    alloc: Global,
    name: &MethodName,
) -> Result<(), NoMemory>
    ensures { OnOk result (out.new.items ≡ put_method_name name.now out.old.items) }
{
    let spelled = name.spelled(alloc)?;
    append_name(out, spelled.as_str())
}

/// Appends the spelling of a reference to an array as a string literal.
pub(crate) fn append_array(
    out: &mut Vec<u8>,
    alloc: Global,
    array: &ArrayRef,
) -> Result<(), NoMemory>
    ensures { OnOk result (out.new.items ≡ put_array array.now out.old.items) }
{
    let spelled = TypeRef::Array(array.copied()?).spelled(alloc)?;
    append_name(out, spelled.as_str())
}
