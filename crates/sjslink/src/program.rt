// The top call.
ghost use Rattle.std.specs.Prelude.{◌≡◌, ◌⊎◌, ◌≤◌, ◌<◌, ◌^◌, ℕ, List, [], Some, None, Ok, length, map, string_bytes};
ghost use Rattle.sj_outside.specs.Contents.{Parts};
ghost use Rattle.sj_outside.specs.Faults.{Rose};
ghost use Rattle.sj_outside.specs.Writing.{Appends};
ghost use Rattle.sj_words.specs.Earlier.{split_command as command};
ghost use Rattle.sjslink.specs.Editing.{AreHeld, RunEnds};
ghost use Rattle.sjslink.specs.Headline.{ShowsTheSame, ShowsPrefix};
ghost use Rattle.sjslink.specs.Input.{HasEntries, HasNamed, HoldWhatIsNamed, IsLinkCommand, planned_style as planned};
ghost use Rattle.sjslink.specs.Output as output;

use crate::Status;
use crate::editing::{Fault, edit_folders};
use crate::entries::{NoEntries, read_entries};
use crate::reports::entries_line;
use crate::writing::finish;
use sj_names::Entries;
use sj_outside::{Folders, Lines, Outputs};
use sj_session::{Options, Session};
use sj_split::Style;
use sj_words::{Command, Link, split_command};
use std::alloc::Global;

const USAGE: &str =
    "usage: sjslink link [--split fewest|smallest] [--optimize on|off] ENTRIES OUT FOLDER..\n";

/// Does what the command line `words`, without the program's name, asks for: reads the entries file, edits a session by each folder, puts the files of
/// each edit that is accepted, and prints a line for each. The condition is that there are fewer than 2^32 words.
///
/// What is written, and the status, is one function of the words and of what the folders hold, as far as they tell that. A fault or
/// want of memory ends the run at once; what was written then is a front of it, or of what is written for the first folders.
pub fn run<F: Folders, O: Outputs, L: Lines>(
    alloc: Global,
    words: Vec<String>,
    folders: &mut F,
    outputs: &mut O,
    lines: &mut L,
) -> Status
    requires { length words.items < 2 ^ 32 }

    // Where the run ends by itself, it has written the whole output, and its status is that of the output.
    ensures whole { (c : Parts) → F.holds folders.old ≡ Some c → output.AtEnd result (output.IsWhole (map string_bytes words.items) c (O.puts outputs.old) (O.puts outputs.new) (L.printed lines.old) (L.printed lines.new) result) }

    // In every case what was written is nothing, or a front of the output, or of what is written for the first folders.
    ensures front { (c : Parts) → F.holds folders.old ≡ Some c → output.IsFront (map string_bytes words.items) c (O.puts outputs.old) (O.puts outputs.new) (L.printed lines.old) (L.printed lines.new) }

    // The headline: a link command that has answered all its folders has put the files of those that are accepted, in their order. The files of
    // each are those that its folder is linked to, and show what its classes show.
    ensures agrees { (c : Parts) → F.holds folders.old ≡ Some c → (result ≡ Status.Done) ⊎ (result ≡ Status.SomeRefused) → ShowsTheSame (map string_bytes words.items) c (O.puts outputs.old) (O.puts outputs.new) }

    // In every case what was put is a prefix of such files of the first folders.
    ensures shown { (c : Parts) → F.holds folders.old ≡ Some c → ShowsPrefix (map string_bytes words.items) c (O.puts outputs.old) (O.puts outputs.new) }

    // Nothing is asked for that the folders lack, but for what the words name.
    ensures missing { (c : Parts) → F.holds folders.old ≡ Some c → HoldWhatIsNamed c (map string_bytes words.items) → F.missing folders.new ≡ F.missing folders.old }

    // Words that are no command are answered so, also where the folders tell nothing.
    ensures no_command { command (map string_bytes words.items) ≡ None → output.EndsWithLine Status.Usage (O.puts outputs.old) (O.puts outputs.new) (L.printed lines.old) (L.printed lines.new) output.usage_line (Rose (L.faults lines.old) (L.faults lines.new)) result }
    ensures usage { result ≡ Status.Usage → command (map string_bytes words.items) ≡ None }

    // So is a bad entries file.
    ensures bad_entries { (number : ℕ) → result ≡ Status.BadEntries number → Appends (O.puts outputs.old) (O.puts outputs.new) [] × Appends (L.printed lines.old) (L.printed lines.new) (output.entries_line number) }

    // What the folders hold stays, and no count falls.
    ensures same { F.holds folders.new ≡ F.holds folders.old }
    ensures read_faults { F.faults folders.old ≤ F.faults folders.new }
    ensures output_faults { O.faults outputs.old ≤ O.faults outputs.new }
    ensures line_faults { L.faults lines.old ≤ L.faults lines.new }

    // Each fault has its cause.
    ensures read_fault { result ≡ Status.ReadFault → Rose (F.faults folders.old) (F.faults folders.new) }
    ensures write_fault { result ≡ Status.WriteFault → Rose (O.faults outputs.old) (O.faults outputs.new) ⊎ Rose (L.faults lines.old) (L.faults lines.new) }
{
    match split_command(alloc, words.as_slice()) {
        Ok(Some(Command::Link(link))) => run_link(alloc, &link, folders, outputs, lines),
        Ok(_) => finish(alloc, Status::Usage, USAGE, lines),
        Err(_) => Status::NoMemory,
    }
}

fn run_link<F: Folders, O: Outputs, L: Lines>(
    alloc: Global,
    link: &Link,
    folders: &mut F,
    outputs: &mut O,
    lines: &mut L,
) -> Status
    requires { length link.now.folders < 2 ^ 32 }
    ensures ends { (words : List (List ℕ)) (c : Parts) → IsLinkCommand words link.now → F.holds folders.old ≡ Some c → RunEnds words c (O.puts outputs.old) (O.puts outputs.new) (L.printed lines.old) (L.printed lines.new) result }
    ensures missing { (c : Parts) → F.holds folders.old ≡ Some c → HasNamed c link.now → F.missing folders.new ≡ F.missing folders.old }
    ensures no_usage { result ≡ Status.Usage → ⊥ }
    ensures bad_entries { (number : ℕ) → result ≡ Status.BadEntries number → Appends (O.puts outputs.old) (O.puts outputs.new) [] × Appends (L.printed lines.old) (L.printed lines.new) (output.entries_line number) }
    ensures same { F.holds folders.new ≡ F.holds folders.old }
    ensures read_faults { F.faults folders.old ≤ F.faults folders.new }
    ensures output_faults { O.faults outputs.old ≤ O.faults outputs.new }
    ensures line_faults { L.faults lines.old ≤ L.faults lines.new }
    ensures read_fault { result ≡ Status.ReadFault → Rose (F.faults folders.old) (F.faults folders.new) }
    ensures write_fault { result ≡ Status.WriteFault → Rose (O.faults outputs.old) (O.faults outputs.new) ⊎ Rose (L.faults lines.old) (L.faults lines.new) }
{
    match read_entries(alloc, link.entries.as_str(), folders) {
        Ok(entries) => edit_all(alloc, link, entries, folders, outputs, lines),
        Err(NoEntries::BadLine(number)) => tell_bad_line(alloc, number, lines),
        Err(NoEntries::ReadFault) => Status::ReadFault,
        Err(NoEntries::NoMemory) => Status::NoMemory,
    }
}

fn edit_all<F: Folders, O: Outputs, L: Lines>(
    alloc: Global,
    link: &Link,
    entries: Entries,
    folders: &mut F,
    outputs: &mut O,
    lines: &mut L,
) -> Status
    requires { length link.now.folders < 2 ^ 32 }
    ensures ends { (words : List (List ℕ)) (c : Parts) → IsLinkCommand words link.now → F.holds folders.old ≡ Some c → HasEntries c link.now.entries (Ok entries) → RunEnds words c (O.puts outputs.old) (O.puts outputs.new) (L.printed lines.old) (L.printed lines.new) result }
    ensures missing { (c : Parts) → F.holds folders.old ≡ Some c → AreHeld c link.now.folders → F.missing folders.new ≡ F.missing folders.old }
    ensures no_usage { result ≡ Status.Usage → ⊥ }
    ensures no_bad_entries { (number : ℕ) → result ≡ Status.BadEntries number → ⊥ }
    ensures same { F.holds folders.new ≡ F.holds folders.old }
    ensures read_faults { F.faults folders.old ≤ F.faults folders.new }
    ensures output_faults { O.faults outputs.old ≤ O.faults outputs.new }
    ensures line_faults { L.faults lines.old ≤ L.faults lines.new }
    ensures read_fault { result ≡ Status.ReadFault → Rose (F.faults folders.old) (F.faults folders.new) }
    ensures write_fault { result ≡ Status.WriteFault → Rose (O.faults outputs.old) (O.faults outputs.new) ⊎ Rose (L.faults lines.old) (L.faults lines.new) }
{
    let options = Options {
        style: planned_style(link.style),
        optimize: false,
    };
    let mut session = Session::new(alloc, entries, options);
    match edit_folders(alloc, link, &mut session, folders, outputs, lines) {
        Ok(true) => Status::Done,
        Ok(false) => Status::SomeRefused,
        Err(Fault::Read) => Status::ReadFault,
        Err(Fault::Write) => Status::WriteFault,
        Err(Fault::NoMemory) => Status::NoMemory,
    }
}

fn planned_style(style: sj_words::Style) -> Style
    ensures { result ≡ planned style }
{
    match style {
        sj_words::Style::Fewest => Style::Fewest,
        sj_words::Style::Smallest => Style::Smallest,
    }
}

fn tell_bad_line<L: Lines>(alloc: Global, number: u32, lines: &mut L) -> Status
    ensures ends { output.Ends (Status.BadEntries number) (Appends (L.printed lines.old) (L.printed lines.new) (output.entries_line number)) (Appends (L.printed lines.old) (L.printed lines.new) []) (Rose (L.faults lines.old) (L.faults lines.new)) result }
    ensures faults { L.faults lines.old ≤ L.faults lines.new }
{
    match entries_line(alloc, number) {
        Ok(text) => finish(alloc, Status::BadEntries(number), text.as_str(), lines),
        Err(_) => Status::NoMemory,
    }
}
