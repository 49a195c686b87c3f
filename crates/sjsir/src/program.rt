// The top call.
ghost use Rattle.std.specs.Prelude.{◌≡◌, ◌⊎◌, ◌≤◌, None, Some, map, string_bytes};
ghost use Rattle.sj_outside.specs.Contents.{Parts};
ghost use Rattle.sj_outside.specs.Faults.{Rose};
ghost use Rattle.sjsir.specs.Command.{command};
ghost use Rattle.sjsir.specs.Output as output;
ghost use Rattle.sjsir.specs.Printing.{HasNamed};
ghost use Rattle.sjsir.specs.Writing as writing;

use crate::answers::Status;
use crate::making::{Made, made_at};
use crate::printing::print_files;
use crate::words::{Asked, read_words};
use crate::writing::{print_text, write_made};
use sj_outside::{Folders, Lines, Outputs};
use std::alloc::Global;

const USAGE: &str = "usage: sjsir print FILE.. | make LISTING OUT | --help | --version\n";

const HELP: &str =
    "usage: sjsir print FILE.. | make LISTING OUT | --help | --version\n\nprint  prints each class file as one line, its listing\nmake   writes the class file of the listing in LISTING as OUT\n";

const VERSION: &str = "sjsir 0.1.0\n";

/// Does what the command line `words`, without the program's name, asks for.
///
/// `print FILE..` prints one line for each file, in order and as soon as it is read: its listing, or `FILE refused CODE OFFSET` and the
/// name of the form that isn't supported, where there is one. `make LISTING OUT` puts the class file of the one listing in LISTING,
/// behind which a line feed may stand, as OUT, or prints `refused OFFSET` where it is none. `--help` and `--version` print their texts.
///
/// What is written, and the status, is one function of the words and of what the folders hold, as far as they tell that. A fault or
/// want of memory ends the run at once; what was written then is a front of it.
pub fn run<F: Folders, O: Outputs, L: Lines>(
    alloc: Global,
    words: Vec<String>,
    folders: &mut F,
    outputs: &mut O,
    lines: &mut L,
) -> Status
    // Where the run ends by itself, it has written the whole output, and its status is that of the output.
    ensures whole { (c : Parts) → F.holds folders.old ≡ Some c → output.AtEnd result (output.IsWhole (map string_bytes words.items) c (O.puts outputs.old) (O.puts outputs.new) (L.printed lines.old) (L.printed lines.new) result) }

    // In every case what was written is nothing, or a front of the output, or the lines of the first files.
    ensures front { (c : Parts) → F.holds folders.old ≡ Some c → output.IsFront (map string_bytes words.items) c (O.puts outputs.old) (O.puts outputs.new) (L.printed lines.old) (L.printed lines.new) }

    // Nothing is asked for that the folders lack, but for what the words name.
    ensures missing { (c : Parts) → F.holds folders.old ≡ Some c → HasNamed c (command (map string_bytes words.items)) → F.missing folders.new ≡ F.missing folders.old }

    // Words that are no command are answered so, also where the folders tell nothing.
    ensures no_command { command (map string_bytes words.items) ≡ None → writing.EndsWithLine Status.Usage (O.puts outputs.old) (O.puts outputs.new) (L.printed lines.old) (L.printed lines.new) output.usage_line (Rose (L.faults lines.old) (L.faults lines.new)) result }
    ensures usage { result ≡ Status.Usage → command (map string_bytes words.items) ≡ None }

    // What the folders hold stays, and no count falls.
    ensures same { F.holds folders.new ≡ F.holds folders.old }
    ensures read_faults { F.faults folders.old ≤ F.faults folders.new }
    ensures output_faults { O.faults outputs.old ≤ O.faults outputs.new }
    ensures line_faults { L.faults lines.old ≤ L.faults lines.new }

    // Each fault has its cause.
    ensures read_fault { result ≡ Status.ReadFault → Rose (F.faults folders.old) (F.faults folders.new) }
    ensures write_fault { result ≡ Status.WriteFault → Rose (O.faults outputs.old) (O.faults outputs.new) ⊎ Rose (L.faults lines.old) (L.faults lines.new) }
{
    match read_words(words.as_slice()) {
        None => print_text(alloc, Status::Usage, USAGE, lines),
        Some(Asked::Help) => print_text(alloc, Status::Done, HELP, lines),
        Some(Asked::Version) => print_text(alloc, Status::Done, VERSION, lines),
        Some(Asked::Print(files)) => print_files(alloc, files, folders, lines),
        Some(Asked::Make { listing, out }) => match made_at(alloc, listing, folders) {
            Ok(made) => write_made(alloc, out, &made, outputs, lines),
            Err(stop) => stop.status(),
        },
    }
}
