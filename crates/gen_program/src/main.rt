//! Writes a generated folder to disk, for measures that others can repeat: `N OUT` puts the `N + 1` class files of the folder into
//! `OUT/1`, and `N OUT edited` those of the edited folder into `OUT/2`.
#![tactic(auto)]

ghost use Rattle.std.specs.Prelude.{◌≤◌, IfSome};

use sj_gen::folder;
use sj_names::NoMemory;
use sj_outside::{Lines, Outputs, OutsideError, RealLines, RealOutputs, is_operand, real_words};
use std::alloc::Global;
use std::process::ExitCode;

const USAGE: &str = "usage: gen_program N OUT [edited], with N from 1 to 20000\n";

fn main(rt: HostRuntime) -> ExitCode {
    let mut outputs = RealOutputs::new(&rt);
    let mut lines = RealLines::new(&rt);
    let status = match real_words(&rt) {
        Ok(words) => run(rt.alloc(), words.as_slice(), &mut outputs, &mut lines),
        Err(NoMemory) => Status::NoMemory,
    };
    ExitCode::from(status.exit_code())
}

/// How a run ended.
#[derive(Clone, Copy)]
enum Status {
    Done,
    Usage,
    WriteFault,
    NoMemory,
}

impl Status {
    fn exit_code(self) -> u8 {
        match self {
            Status::Done => 0,
            Status::Usage => 2,
            Status::WriteFault => 4,
            Status::NoMemory => 5,
        }
    }
}

/// A folder, and where its files are put.
#[derive(Clone, Copy)]
struct Asked<'w> {
    number: u32,
    out: &'w str,
    edited: bool,
}

fn run<O: Outputs, L: Lines>(
    alloc: Global,
    words: &[String],
    outputs: &mut O,
    lines: &mut L,
) -> Status {
    match read_words(words) {
        Some(asked) => ended(put_folder(alloc, asked, outputs), Status::Done),
        None => ended(lines.line(alloc, USAGE.as_bytes()), Status::Usage),
    }
}

// How a run ended that would else have ended so.
fn ended(done: Result<(), OutsideError>, status: Status) -> Status {
    match done {
        Ok(()) => status,
        Err(OutsideError::Failed) => Status::WriteFault,
        Err(OutsideError::NoMemory) => Status::NoMemory,
    }
}

fn read_words(words: &[String]) -> Option<Asked<'_>>
    ensures { IfSome result (λ asked. (1 ≤ asked.number) × (asked.number ≤ 20000)) }
{
    match words {
        [number, out] => folder_at(number.as_str(), out.as_str(), false),
        [number, out, edited] if edited.as_str() == "edited" => {
            folder_at(number.as_str(), out.as_str(), true)
        }
        _ => None,
    }
}

fn folder_at<'w>(number: &str, out: &'w str, edited: bool) -> Option<Asked<'w>>
    ensures { IfSome result (λ asked. (1 ≤ asked.number) × (asked.number ≤ 20000)) }
{
    if !is_operand(out) {
        return None;
    }
    match number.parse::<u32>() {
        Ok(number) if 1 <= number && number <= 20_000 => Some(Asked {
            number,
            out,
            edited,
        }),
        _ => None,
    }
}

fn put_folder<O: Outputs>(
    alloc: Global,
    asked: Asked<'_>,
    outputs: &mut O,
) -> Result<(), OutsideError>
    requires at_least { 1 ≤ asked.number }
    requires at_most { asked.number ≤ 20000 }
{
    let folder = folder(alloc, asked.number, asked.edited)?;
    let edit = if asked.edited { 2 } else { 1 };
    for file in folder.files.as_slice() {
        outputs.put(
            alloc,
            asked.out,
            edit,
            file.path.as_str(),
            file.bytes.as_slice(),
        )?;
    }
    Ok(())
}
