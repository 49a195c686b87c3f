//! The command `sjsir`, over real files and standard output.
#![tactic(auto)]

use sj_names::NoMemory;
use sj_outside::{RealFiles, RealFolders, RealLines, real_words};
use sjsir::{Status, run};
use std::process::ExitCode;

fn main(rt: HostRuntime) -> ExitCode {
    let mut folders = RealFolders::new(&rt);
    let mut files = RealFiles::new(&rt);
    let mut lines = RealLines::new(&rt);
    let status = match real_words(&rt) {
        Ok(words) => run(rt.alloc(), words, &mut folders, &mut files, &mut lines),
        Err(NoMemory) => Status::NoMemory,
    };
    ExitCode::from(status.exit_code())
}
