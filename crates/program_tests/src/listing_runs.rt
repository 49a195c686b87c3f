// The top call over files and lines in memory.
use crate::memory::{failing, words};
use sj_outside::{
    Contents, ContentsError, FoldersInMemory, LinesInMemory, OutputsInMemory, PutFile,
};
use sjsir::{Status, run};
use std::alloc::Global;
use std::test::Fail;

// One class, whose method `main` logs `hi`. Its positions are in no named source file.
const HI: &[u8; 156] =
    b"\xca\xfeJS\x00\x061.0-i1\x00\x00\x00\x01\x00\x00\x00\x00\x00\x00\x00\x02\x00\x00\x00\x10java.lang.Object\x00\x00\x00\x04main\x00\x00\x00\x01\x00\x00\x00\x01\x00\x00\x00\x00\x01\x00\x00\x00\x01\x00\x00\x00\x02hi\x00\x00\x00\x00\x00\x00\x00\x00\x00\x00\x00\x00\x00\x00\x00\x00\x01\x00\x00\x00\x00\x00\x00\x00\x00\x01\x02\x00\x00\x00\x00\x00\x00\x00\x00\x00\x00\x00\x00\x01\x00\x00\x00\x00\x00\x00\x00\x00\x0e\x01)\x00\x00\x00\x00\x00\x00\x00\x00\x00\x00\x00\x00&\x00\x00\x00\x00\x00\x00\x00\x00\x00\x00\x00\x00\x00\x00\x00\x00\x00";

const HI_LISTING: &str =
    "(class \"java.lang.Object\" Class - [] [] [(method PublicStatic \"main;V\" [] none (Log (StringLiteral \"hi\")))])\n";

fn contents(alloc: Global) -> Result<Contents, ContentsError> {
    Contents::new(alloc)
        .with_file(alloc, "hi.sjsir", HI)?
        .with_file(alloc, "cut.sjsir", &HI[..3])?
        .with_file(alloc, "hi", HI_LISTING.as_bytes())?
        .with_file(alloc, "cut", b"(class")
}

const CUT_AND_HI_LISTING: &str =
    "cut.sjsir refused 3 0\n(class \"java.lang.Object\" Class - [] [] [(method PublicStatic \"main;V\" [] none (Log (StringLiteral \"hi\")))])\n";

const NEVER: [u64; 3] = [0, 0, 0];

// A run, with the numbers of the calls that are to fail, and what it comes to; where the file is empty, none is put.
struct Row {
    words: &'static [&'static str],
    failing: [u64; 3],
    status: Status,
    file: &'static [u8],
    lines: &'static str,
}

const ROWS: &[Row; 7] = &[
    Row {
        words: &["print", "hi.sjsir"],
        failing: NEVER,
        status: Status::Done,
        file: b"",
        lines: HI_LISTING,
    },
    Row {
        words: &["print", "cut.sjsir", "hi.sjsir"],
        failing: NEVER,
        status: Status::SomeRefused,
        file: b"",
        lines: CUT_AND_HI_LISTING,
    },
    Row {
        words: &["make", "hi", "out.sjsir"],
        failing: NEVER,
        status: Status::Done,
        file: HI,
        lines: "",
    },
    Row {
        words: &["make", "cut", "out.sjsir"],
        failing: NEVER,
        status: Status::SomeRefused,
        file: b"",
        lines: "refused 6\n",
    },
    Row {
        words: &["make", "hi"],
        failing: NEVER,
        status: Status::Usage,
        file: b"",
        lines: "usage: sjsir print FILE.. | make LISTING OUT | --help | --version\n",
    },
    Row {
        words: &["print", "hi.sjsir", "hi.sjsir"],
        failing: [2, 0, 0],
        status: Status::ReadFault,
        file: b"",
        lines: HI_LISTING,
    },
    Row {
        words: &["make", "hi", "out.sjsir"],
        failing: [0, 1, 0],
        status: Status::WriteFault,
        file: b"",
        lines: "",
    },
];

fn folders(alloc: Global, row: &Row) -> Result<FoldersInMemory, Fail> {
    let failing = failing(alloc, row.failing[0])?;
    Ok(FoldersInMemory::new(contents(alloc)?, failing))
}

// Whether the run comes to what is said of it.
fn is_met(alloc: Global, row: &Row) -> Result<bool, Fail> {
    let words = words(alloc, row.words)?;
    let mut outputs = OutputsInMemory::new(alloc, failing(alloc, row.failing[1])?);
    let mut lines = LinesInMemory::new(alloc, failing(alloc, row.failing[2])?);
    let mut folders = folders(alloc, row)?;
    let status = run(alloc, words, &mut folders, &mut outputs, &mut lines);
    Ok(
        status == row.status
            && is_put(&outputs.puts, row.file)
            && lines.text.as_slice() == row.lines.as_bytes(),
    )
}

fn is_put(puts: &[PutFile], file: &[u8]) -> bool {
    match puts {
        [] => file.is_empty(),
        [put] => put.name.as_str() == "out.sjsir" && put.bytes.as_slice() == file,
        _ => false,
    }
}

fn are_met(alloc: Global, rows: &[Row]) -> Result<bool, Fail> {
    for row in rows {
        if !is_met(alloc, row)? {
            return Ok(false);
        }
    }
    Ok(true)
}

#[test]
fn runs_come_to_what_is_said(rt: HostRuntime) -> Result<(), Fail> {
    let are_met = are_met(rt.alloc(), ROWS)?;
    assert!(rt; are_met);
    Ok(())
}
