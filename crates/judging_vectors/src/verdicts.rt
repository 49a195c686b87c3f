// The verdicts on folders.
use crate::texts::{add, add_refusal, entries_in};
use folder_judging::{JudgeError, judge};
use sj_names::{Entries, Meter, NameError, SourceFile};
use sj_workshop::Workshop;
use sj_world::LinkedWorld;
use std::alloc::Global;

/// Adds the answer to `judge`: `ok`, or `refused CODE PLACE`.
pub(crate) fn add_answer(
    alloc: Global,
    files: &[SourceFile],
    entries: &str,
    text: &mut String,
) -> Result<(), NameError> {
    match entries_in(alloc, entries) {
        Some(entries) => add_verdict(alloc, files, &entries, text),
        None => add(&["no entries\n"], text),
    }
}

fn add_verdict(
    alloc: Global,
    files: &[SourceFile],
    entries: &Entries,
    text: &mut String,
) -> Result<(), NameError> {
    let mut work = Workshop {
        meter: Meter::new(),
    };
    add_judged(alloc, &judge(alloc, files, entries, &mut work), text)
}

fn add_judged(
    alloc: Global,
    judged: &Result<LinkedWorld, JudgeError>,
    text: &mut String,
) -> Result<(), NameError> {
    match judged {
        Ok(_) => add(&["ok\n"], text),
        Err(JudgeError::Refused { code, place }) => add_refusal(alloc, *code, place.as_str(), text),
        Err(JudgeError::NoMemory) => add(&["no memory\n"], text),
    }
}
