//! The command `sjslink`, over real folders, files and standard output.
#![tactic(auto)]

use sj_names::NoMemory;
use sj_outside::{RealFolders, RealLines, RealOutputs, real_words};
use sjslink::{Status, run};
use std::process::ExitCode;

// The most words: each edit has a number of 32 bits. More are no command, and nothing is printed.
const MOST_WORDS: usize = 4_294_967_295;

fn main(rt: HostRuntime) -> ExitCode {
    let mut folders = RealFolders::new(&rt);
    let mut outputs = RealOutputs::new(&rt);
    let mut lines = RealLines::new(&rt);
    let status = match real_words(&rt) {
        Ok(words) if words.len() <= MOST_WORDS => {
            run(rt.alloc(), words, &mut folders, &mut outputs, &mut lines)
        }
        Ok(_) => Status::Usage,
        Err(NoMemory) => Status::NoMemory,
    };
    ExitCode::from(status.exit_code())
}
