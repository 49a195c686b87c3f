// Runs in memory.
use crate::cases::{Case, Failing};
use anyhow::Result;
use sj_outside::{Contents, FoldersInMemory, LinesInMemory, OutputsInMemory, PutFile};
use sjslink::run;
use std::alloc::Global;

/// Whether the run of the case has the status and prints the lines that are wanted, and puts the files.
pub(crate) fn is_met(alloc: Global, case: Case, wanted: &str) -> Result<bool> {
    let Case {
        words,
        mut open,
        failing,
        puts,
        ..
    } = case;
    let contents = match open.pop() {
        Some(contents) => contents,
        None => Contents::new(alloc),
    };
    let Some((status, lines)) = wanted.split_once('\t') else {
        return Ok(false);
    };
    let lines = hex::decode(alloc, lines)?;
    let answered = answered(alloc, words, contents, failing)?;
    Ok(answered.is(status, &lines, &puts))
}

// What a run came to.
#[derive(Drop)]
struct Answer {
    status: u8,
    lines: LinesInMemory,
    outputs: OutputsInMemory,
}

impl Answer {
    fn is(&self, status: &str, lines: &[u8], puts: &[PutFile]) -> bool {
        has_status(self.status, status)
            && self.lines.text.as_slice() == lines
            && are_same(self.outputs.puts.as_slice(), puts)
    }
}

fn answered(
    alloc: Global,
    words: Vec<String>,
    contents: Contents,
    failing: Failing,
) -> Result<Answer> {
    let mut outputs = OutputsInMemory::new(alloc, one(alloc, failing.outputs)?);
    let mut lines = LinesInMemory::new(alloc, one(alloc, failing.lines)?);
    let mut folders = FoldersInMemory::new(contents, one(alloc, failing.folders)?);
    let status = match words.len() < 1000 {
        true => run(alloc, words, &mut folders, &mut outputs, &mut lines).exit_code(),
        false => 255,
    };
    Ok(Answer {
        status,
        lines,
        outputs,
    })
}

fn one(alloc: Global, number: u64) -> Result<Vec<u64>> {
    Ok(vec![in alloc; number]?)
}

fn has_status(status: u8, wanted: &str) -> bool {
    match wanted.parse::<u8>() {
        Ok(wanted) => status == wanted,
        Err(_) => false,
    }
}

fn are_same(puts: &[PutFile], wanted: &[PutFile]) -> bool {
    puts.len() == wanted.len()
        && puts
            .iter()
            .zip(wanted)
            .all(|(one, other)| is_same(one, other))
}

fn is_same(one: &PutFile, other: &PutFile) -> bool {
    one.out == other.out
        && one.edit == other.edit
        && one.name == other.name
        && one.bytes.as_slice() == other.bytes.as_slice()
}
