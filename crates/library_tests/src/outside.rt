// Contents in memory, and calls that fail in turn.
use sj_outside::{
    Contents, ContentsError, Entry, Folders, FoldersInMemory, Lines, LinesInMemory, Outputs,
    OutputsInMemory, OutsideError, PutFile,
};
use std::alloc::{AllocError, Global};
use std::test::Fail;

fn some_contents(alloc: Global) -> Result<Contents, ContentsError> {
    let inner = Contents::new(alloc).with_file(alloc, "a.sjsir", b"abc")?;
    Contents::new(alloc)
        .with_file(alloc, "entries", b"main A main\n")?
        .with_folder(alloc, "f1", inner)
}

// The contents, of which these calls fail.
fn some_folders(alloc: Global, failing: Vec<u64>) -> Result<FoldersInMemory, ContentsError> {
    Ok(FoldersInMemory::new(some_contents(alloc)?, failing))
}

// The names in a folder, with `/` behind those of folders.
fn list(alloc: Global, folders: &mut FoldersInMemory, path: &str) -> Result<String, OutsideError> {
    let entries = folders.list(alloc, path)?;
    Ok(names(alloc, &entries)?)
}

fn names(alloc: Global, entries: &[Entry]) -> Result<String, AllocError> {
    let mut text = String::new(alloc);
    for entry in entries {
        text.push_str(entry.name.as_str())?;
        text.push_str(if entry.is_folder { "/ " } else { " " })?;
    }
    Ok(text)
}

fn lists(alloc: Global, folders: &mut FoldersInMemory, path: &str, expected: &str) -> bool {
    match list(alloc, folders, path) {
        Ok(names) => names.as_str() == expected,
        Err(_) => false,
    }
}

// Whether the first bytes of a file, at most so many, are these.
fn begins(alloc: Global, folders: &mut FoldersInMemory, most: usize, expected: &[u8]) -> bool {
    match folders.read(alloc, "f1/a.sjsir", most) {
        Ok(bytes) => bytes.as_slice() == expected,
        Err(_) => false,
    }
}

#[test]
fn folders_are_listed_and_files_are_read(rt: HostRuntime) -> Result<(), Fail> {
    let alloc = rt.alloc();
    let mut folders = some_folders(alloc, Vec::new(alloc))?;
    let are_listed = lists(alloc, &mut folders, "", "f1/ entries ")
        && lists(alloc, &mut folders, "f1/", "a.sjsir ");
    let are_read = begins(alloc, &mut folders, 4, b"abc") && begins(alloc, &mut folders, 2, b"ab");
    assert!(rt; are_listed && are_read && folders.missing == 0);
    Ok(())
}

// Whether calls for what isn't there fail.
fn is_missing(alloc: Global, folders: &mut FoldersInMemory) -> bool {
    let folder = folders.read(alloc, "f1", 9).err();
    let file = folders.list(alloc, "entries").err();
    let behind = folders.read(alloc, "f1/a.sjsir/", 9).err();
    [folder, file, behind] == [Some(OutsideError::Failed); 3]
}

#[test]
fn what_is_missing_is_counted(rt: HostRuntime) -> Result<(), Fail> {
    let alloc = rt.alloc();
    let mut folders = some_folders(alloc, Vec::new(alloc))?;
    let is_missing = is_missing(alloc, &mut folders);
    assert!(rt; is_missing && folders.missing == 3 && folders.calls.faults == 3);
    Ok(())
}

fn is_bad(alloc: Global, name: &str) -> Result<bool, ContentsError> {
    let contents = some_contents(alloc)?;
    let error = contents.with_file(alloc, name, b"").err();
    Ok(error == Some(ContentsError::BadName))
}

#[test]
fn bad_names_are_refused(rt: HostRuntime) {
    let twice = is_bad(rt.alloc(), "f1");
    let slash = is_bad(rt.alloc(), "a/b");
    assert!(rt; twice == Ok(true) && slash == Ok(true));
}

// Whether the one call of folders that is to fail does.
fn call_fails(alloc: Global, failing: u64) -> Result<bool, ContentsError> {
    let mut folders = some_folders(alloc, vec![in alloc; failing]?)?;
    let first = folders.list(alloc, "f1").is_ok();
    let second = folders.read(alloc, "entries", 99).is_ok();
    let third = folders.list(alloc, "").is_ok();
    let is_one = [first, second, third] == [failing != 1, failing != 2, failing != 3];
    Ok(is_one && folders.missing == 0 && folders.calls.faults == 1)
}

#[test]
fn each_call_of_folders_fails_in_turn(rt: HostRuntime) {
    for failing in 1..=3 {
        let fails = call_fails(rt.alloc(), failing);
        assert!(rt; fails == Ok(true));
    }
}

// Whether the one put that is to fail does, and the file of the other edit is put.
fn put_fails(alloc: Global, failing: u64, kept: u32) -> Result<bool, AllocError> {
    let mut outputs = OutputsInMemory::new(alloc, vec![in alloc; failing]?);
    let first = outputs.put(alloc, "out", 1, "a.js", b"a").is_ok();
    let second = outputs.put(alloc, "out", 2, "b.js", b"b").is_ok();
    let is_one = [first, second] == [failing != 1, failing != 2];
    Ok(is_one && is_of_edit(&outputs.puts, kept) && outputs.calls.faults == 1)
}

// Whether one file was put, in this edit.
fn is_of_edit(puts: &[PutFile], edit: u32) -> bool {
    match puts {
        [one] => one.edit == edit,
        _ => false,
    }
}

#[test]
fn each_put_fails_in_turn(rt: HostRuntime) {
    let first = put_fails(rt.alloc(), 1, 2);
    let second = put_fails(rt.alloc(), 2, 1);
    assert!(rt; first == Ok(true) && second == Ok(true));
}

// Whether the one line that is to fail does, and the other is kept.
fn line_fails(alloc: Global, failing: u64, kept: &[u8]) -> Result<bool, AllocError> {
    let mut lines = LinesInMemory::new(alloc, vec![in alloc; failing]?);
    let first = lines.line(alloc, b"one\n").is_ok();
    let second = lines.line(alloc, b"two\n").is_ok();
    let is_one = [first, second] == [failing != 1, failing != 2];
    Ok(is_one && lines.text.as_slice() == kept && lines.calls.faults == 1)
}

#[test]
fn each_line_fails_in_turn(rt: HostRuntime) {
    let first = line_fails(rt.alloc(), 1, b"two\n");
    let second = line_fails(rt.alloc(), 2, b"one\n");
    assert!(rt; first == Ok(true) && second == Ok(true));
}
