//! Compares whole runs of the linker, over folders, files and lines in memory, with those of an independent reference. The input is blocks of lines, with
//! tabs between the fields: `case NAME`; what is held, from the inside out, as `folder`, `file NAME BYTES` and `end NAME` for a folder within it; `word WORD`
//! for each word; `fail CALLS NUMBER` where a call of `folders`, `outputs` or `lines` is to fail; `put EDIT NAME BYTES` for each file that is to be put; and
//! `expect STATUS LINES`: the exit status, and the bytes of the lines.
#![tactic(auto)]

mod cases;
mod runs;

use anyhow::Result;
use cases::Case;
use runs::is_met;
use std::alloc::Global;

// How many cases are met.
#[derive(Drop)]
struct Tally {
    agree: u64,
    differ: u64,
}

fn main(rt: HostRuntime) -> Result<()> {
    let alloc = rt.alloc();
    let mut case = Case::new(alloc)?;
    let mut tally = Tally {
        agree: 0,
        differ: 0,
    };
    for line in rt.lines(alloc) {
        let line = line?;
        match line.as_str().split_once('\t') {
            Some(("expect", wanted)) => {
                print!(rt; "{}", compared(alloc, case, wanted, &mut tally)?)?;
                case = Case::new(alloc)?;
            }
            Some((kind, fields)) => case.add(alloc, kind, fields)?,
            None => {}
        }
    }
    println!(rt; "agree {}, differ {}", tally.agree, tally.differ)?;
    Ok(())
}

// What is to be told of a case.
fn compared(alloc: Global, case: Case, wanted: &str, tally: &mut Tally) -> Result<String> {
    let name = case.name_copy(alloc)?;
    if is_met(alloc, case, wanted)? {
        tally.agree = tally.agree.saturating_add(1);
        return Ok(String::new(alloc));
    }
    tally.differ = tally.differ.saturating_add(1);
    Ok(format!(in alloc; "{name}: the run comes to something else\n")?)
}
