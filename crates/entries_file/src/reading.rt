// The entries file.
ghost use Rattle.std.specs.Prelude.{◌≡◌, ◌≤◌, ◌<◌, Ok, Some, MatchResult, length};
ghost use Rattle.entries_file.specs.EntriesFile as spec;
ghost use Rattle.entries_file.specs.EntriesFile.{said, most_bytes, most_entries};
ghost use Rattle.entries_file.specs.Lines.{lines};
ghost use Rattle.entries_file.specs.Refusals.{IsRefused, IsLineRefused};

use crate::EntriesError;
use crate::lines::{entry_of_line, first_line};
use sj_names::{Entries, EntryPoint};
use std::alloc::Global;

const MOST_BYTES: usize = 1_048_576;

const MOST_ENTRIES: usize = 1_000;

/// The entry points that the bytes of an entries file say, in the order of its lines, or the number of its first bad line.
///
/// Lines end with a line feed, which the last may lack. They are numbered from 1, empty ones too, and an empty line says nothing. Any
/// other is `MODULE CLASS METHOD` with single spaces, in UTF-8: the id of a public module, the name of a class, and a simple name
/// other than `<init>`. A file has at most 1,000 entries: the next line that isn't empty is bad, whatever it holds.
///
/// `BadLine` with the number of the first bad line, or with 0 where the file has more than 1,048,576 bytes, or no line is bad and
/// there is no entry; `NoMemory` where no memory is left.
pub fn entries_of(alloc: Global, bytes: &[u8]) -> Result<Entries, EntriesError>
    ensures { MatchResult result (λ e. spec.entries_of bytes.now ≡ Ok e) (IsRefused (spec.entries_of bytes.now)) }
{
    if bytes.len() > MOST_BYTES {
        return Err(EntriesError::BadLine(0));
    }
    let list = listed(alloc, bytes)?;
    if list.is_empty() {
        return Err(EntriesError::BadLine(0));
    }
    Ok(Entries::new(list))
}

// What the lines of the text say.
fn listed(alloc: Global, text: &[u8]) -> Result<Vec<EntryPoint>, EntriesError>
    requires { length text.now ≤ most_bytes }
    ensures { MatchResult result (λ l. said 1 most_entries (lines text.now) ≡ Ok l.items) (IsRefused (said 1 most_entries (lines text.now))) }
{
    let mut list = Vec::new(alloc);
    let mut rest = text;
    let mut number: u32 = 0;
    while !rest.is_empty() {
        let (line, behind) = first_line(rest);
        rest = behind;
        number += 1;
        if line.is_empty() {
            continue;
        }
        list.push(next_entry(alloc, list.len(), number, line)?)?;
    }
    Ok(list)
}

// The entry of the line at this number, behind so many entries.
fn next_entry(
    alloc: Global,
    taken: usize,
    number: u32,
    line: &[u8],
) -> Result<EntryPoint, EntriesError>
    ensures { MatchResult result (λ e. (taken < most_entries) × (spec.entry_of_line line.now ≡ Some e)) (IsLineRefused taken number line.now) }
{
    if taken >= MOST_ENTRIES {
        return Err(EntriesError::BadLine(number));
    }
    match entry_of_line(alloc, line)? {
        Some(entry) => Ok(entry),
        None => Err(EntriesError::BadLine(number)),
    }
}
