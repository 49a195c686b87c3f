// Cases of names.
use crate::outcome::{Undecided, taken_name};
use sj_mangling::{mangle, mangle_class, mangle_method};
use sj_names::{ClassName, FieldName, LabelName, LocalName, MethodName, SimpleName, TypeRef};
use std::alloc::Global;

/// Whether the case is met: the text, in hexadecimal, is taken as this kind of name exactly where `verdict` is `ok`, a taken
/// name is spelled by that text, and it is mangled as told.
pub(crate) fn is_met(
    alloc: Global,
    kind: &str,
    text: &str,
    verdict: &str,
    mangled: Option<&str>,
) -> Result<bool, Undecided> {
    let bytes = hex::decode(alloc, text)?;
    match str::from_utf8(bytes.as_slice()) {
        Ok(text) => is_met_by(alloc, kind, text, verdict, mangled),
        Err(_) => Ok(verdict == "bad"),
    }
}

fn is_met_by(
    alloc: Global,
    kind: &str,
    text: &str,
    verdict: &str,
    mangled: Option<&str>,
) -> Result<bool, Undecided> {
    let answer = answer_of(alloc, kind, text)?;
    Ok(answer.agrees(verdict, mangled))
}

fn answer_of(alloc: Global, kind: &str, text: &str) -> Result<Answer, Undecided> {
    match kind {
        "class" => class_answer(alloc, text),
        "method" => method_answer(alloc, text),
        "field" => field_answer(alloc, text),
        "local" => local_answer(alloc, text),
        "label" => label_answer(alloc, text),
        "simple" => simple_answer(alloc, text),
        _ => reference_answer(alloc, text),
    }
}

// What was answered: a refusal, a name, or a name with its mangled text.
#[derive(Drop)]
enum Answer {
    Refused,
    Taken,
    Mangled(Vec<u8>),
}

impl Answer {
    fn plain(is_taken: bool) -> Answer {
        if is_taken {
            Answer::Taken
        } else {
            Answer::Refused
        }
    }

    fn agrees(&self, verdict: &str, mangled: Option<&str>) -> bool {
        match self {
            Answer::Refused => verdict == "bad",
            Answer::Taken => verdict == "ok" && mangled.is_none(),
            Answer::Mangled(bytes) => match mangled {
                Some(mangled) => verdict == "ok" && bytes.as_slice() == mangled.as_bytes(),
                None => false,
            },
        }
    }
}

fn class_answer(alloc: Global, text: &str) -> Result<Answer, Undecided> {
    match taken_name(ClassName::parse(alloc, text))? {
        Some(class) => Ok(Answer::Mangled(mangle_class(alloc, &class)?)),
        None => Ok(Answer::Refused),
    }
}

fn method_answer(alloc: Global, text: &str) -> Result<Answer, Undecided> {
    match taken_name(MethodName::parse(alloc, text))? {
        Some(method) => taken_method(alloc, text, &method),
        None => Ok(Answer::Refused),
    }
}

fn taken_method(alloc: Global, text: &str, method: &MethodName) -> Result<Answer, Undecided> {
    if method.spelled(alloc)?.as_str() == text {
        Ok(Answer::Mangled(mangle_method(alloc, method)?))
    } else {
        Ok(Answer::Taken)
    }
}

fn label_answer(alloc: Global, text: &str) -> Result<Answer, Undecided> {
    let label = taken_name(LabelName::parse(alloc, text))?;
    Ok(Answer::plain(label.is_some()))
}

fn simple_answer(alloc: Global, text: &str) -> Result<Answer, Undecided> {
    let simple = taken_name(SimpleName::parse(alloc, text))?;
    Ok(Answer::plain(simple.is_some()))
}

fn field_answer(alloc: Global, text: &str) -> Result<Answer, Undecided> {
    match taken_name(FieldName::parse(alloc, text))? {
        Some(field) => Ok(Answer::Mangled(mangle(alloc, field.text())?)),
        None => Ok(Answer::Refused),
    }
}

fn local_answer(alloc: Global, text: &str) -> Result<Answer, Undecided> {
    match taken_name(LocalName::parse(alloc, text))? {
        Some(local) => Ok(Answer::Mangled(mangle(alloc, local.text())?)),
        None => Ok(Answer::Refused),
    }
}

fn reference_answer(alloc: Global, text: &str) -> Result<Answer, Undecided> {
    match taken_name(TypeRef::parse(alloc, text))? {
        Some(reference) => {
            let spelled = reference.spelled(alloc)?;
            Ok(Answer::plain(spelled.as_str() == text))
        }
        None => Ok(Answer::Refused),
    }
}
