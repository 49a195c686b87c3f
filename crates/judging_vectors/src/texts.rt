// The texts of answers, and what several questions share.
use entries_file::entries_of;
use sj_names::{ClassName, Entries, FieldName, Member, Meter, MethodName, NameError};
use sj_reach::spelled_member;
use sj_read::read_class;
use sj_trees::ClassDef;
use std::alloc::Global;

/// The class of a file in hexadecimal digits.
pub(crate) fn class_of(alloc: Global, file: &str) -> Option<ClassDef> {
    let bytes = hex::decode(alloc, file).ok()?;
    read_class(alloc, &bytes, &mut Meter::new()).ok()
}

/// The entries of an entries file in hexadecimal digits.
pub(crate) fn entries_in(alloc: Global, file: &str) -> Option<Entries> {
    let bytes = hex::decode(alloc, file).ok()?;
    entries_of(alloc, &bytes).ok()
}

/// Adds the words.
pub(crate) fn add(words: &[&str], text: &mut String) -> Result<(), NameError> {
    for word in words {
        text.push_str(word)?;
    }
    Ok(())
}

/// Adds the name of a method.
pub(crate) fn add_method(
    alloc: Global,
    method: &MethodName,
    text: &mut String,
) -> Result<(), NameError> {
    let spelled = method.spelled(alloc)?;
    add(&[spelled.as_str()], text)
}

/// Adds a member: its class, a word for its namespace, and its name.
pub(crate) fn add_member(
    alloc: Global,
    member: &Member,
    text: &mut String,
) -> Result<(), NameError> {
    let spelled = spelled_member(alloc, member)?;
    add(&[spelled.as_str()], text)
}

/// Adds the class, the name and the mark of a field.
pub(crate) fn add_field<'t>(
    class: &'t ClassName,
    field: &'t FieldName,
    is_static: bool,
    text: &mut String,
) -> Result<(), NameError> {
    add(&[class.text(), "\t", field.text(), "\t"], text)?;
    add(&[mark(is_static)], text)
}

/// Adds `refused CODE PLACE`.
pub(crate) fn add_refusal(
    alloc: Global,
    code: u8,
    place: &str,
    text: &mut String,
) -> Result<(), NameError> {
    let code = format!(in alloc; "refused\t{code}\t")?;
    add(&[code.as_str()], text)?;
    add(&[place, "\n"], text)
}

/// `1` for what is so.
pub(crate) fn mark(is: bool) -> &'static str {
    if is { "1" } else { "0" }
}
