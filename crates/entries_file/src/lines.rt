// Lines of an entries file.
ghost use Rattle.std.specs.Prelude.{◌≡◌, IfOk};
ghost use Rattle.entries_file.specs.EntriesFile as spec;
ghost use Rattle.entries_file.specs.Lines.{IsFirstLine};

use sj_names::{
    ClassName, EntryPoint, NoMemory, SimpleName, Text, is_class_name, is_plain_name, is_public_id,
};
use std::alloc::Global;
use std::str;

/// The first line of the text, without its line feed, and what stands behind it.
pub fn first_line(text: &[u8]) -> (&[u8], &[u8])
    ensures { IsFirstLine text.now result.0.now result.1.now }
{
    for at in 0..text.len() {
        if text[at] == b'\n' {
            return (&text[..at], &text[at + 1..]);
        }
    }
    (text, &text[text.len()..])
}

/// The entry that the line spells.
pub fn entry_of_line(alloc: Global, line: &[u8]) -> Result<Option<EntryPoint>, NoMemory>
    ensures { IfOk result (λ e. e ≡ spec.entry_of_line line.now) }
{
    let Ok(line) = str::from_utf8(line) else {
        return Ok(None);
    };
    let Some((id, rest)) = line.split_once(' ') else {
        return Ok(None);
    };
    let Some((class, method)) = rest.split_once(' ') else {
        return Ok(None);
    };
    entry(alloc, id, class, method)
}

// The entry of these fields, if they are in their grammars.
fn entry(alloc: Global, id: &str, class: &str, method: &str) -> Result<Option<EntryPoint>, NoMemory>
    ensures { IfOk result (λ e. e ≡ spec.entry id.now class.now method.now) }
{
    if !is_public_id(id) || !is_class_name(class) || !is_plain_name(method) {
        return Ok(None);
    }
    Ok(Some(EntryPoint {
        module: Text::from_str(alloc, id)?,
        class: ClassName::of_text(Text::from_str(alloc, class)?),
        method: SimpleName::of_text(Text::from_str(alloc, method)?),
    }))
}
