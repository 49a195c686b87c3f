// What is written.
ghost use Rattle.std.specs.Prelude.{◌⊎◌, ◌≤◌, [], ◌∷◌, ◌++◌, map};
ghost use Rattle.sj_outside.specs.Faults.{Rose};
ghost use Rattle.sj_outside.specs.Writing.{Appends, Writes, WritesFront};
ghost use Rattle.sj_outside.specs.Writing as events;
ghost use Rattle.sj_session.specs.Modules.{as_file};
ghost use Rattle.sjslink.specs.Editing as editing;
ghost use Rattle.sjslink.specs.Output as output;
ghost use Rattle.sjslink.specs.Puts.{put_of};

use crate::Status;
use crate::editing::Fault;
use sj_outside::{Lines, Outputs, OutsideError};
use sj_session::ModuleFile;
use std::alloc::Global;

/// Prints the last line of a run, and answers `status` where that goes well.
pub fn finish<L: Lines>(alloc: Global, status: Status, text: &str, lines: &mut L) -> Status
    ensures ends { output.Ends status (Appends (L.printed lines.old) (L.printed lines.new) text.now) (Appends (L.printed lines.old) (L.printed lines.new) []) (Rose (L.faults lines.old) (L.faults lines.new)) result }
    ensures faults { L.faults lines.old ≤ L.faults lines.new }
{
    match lines.line(alloc, text.as_bytes()) {
        Ok(()) => status,
        Err(OutsideError::Failed) => Status::WriteFault,
        Err(OutsideError::NoMemory) => Status::NoMemory,
    }
}

/// Puts the files of an edit into `out`, and prints its line.
pub fn put_edit<O: Outputs, L: Lines>(
    alloc: Global,
    out: &str,
    number: u32,
    files: &[ModuleFile],
    text: &str,
    outputs: &mut O,
    lines: &mut L,
) -> Result<(), Fault>
    ensures written { let written = output.puts_of out.now number (map as_file files.now) ++ events.line text.now ∷ [] in
        editing.Written (Writes (O.puts outputs.old) (O.puts outputs.new) (L.printed lines.old) (L.printed lines.new) written) (WritesFront (O.puts outputs.old) (O.puts outputs.new) (L.printed lines.old) (L.printed lines.new) written) (Rose (O.faults outputs.old) (O.faults outputs.new) ⊎ Rose (L.faults lines.old) (L.faults lines.new)) result }
    ensures output_faults { O.faults outputs.old ≤ O.faults outputs.new }
    ensures line_faults { L.faults lines.old ≤ L.faults lines.new }
{
    for file in files {
        put_file(alloc, out, number, file, outputs)?;
    }
    print_line(alloc, text, lines)
}

fn put_file<O: Outputs>(
    alloc: Global,
    out: &str,
    number: u32,
    file: &ModuleFile,
    outputs: &mut O,
) -> Result<(), Fault>
    ensures written { editing.Written (Appends (O.puts outputs.old) (O.puts outputs.new) (put_of out.now number (as_file file.now) ∷ [])) (Appends (O.puts outputs.old) (O.puts outputs.new) []) (Rose (O.faults outputs.old) (O.faults outputs.new)) result }
    ensures faults { O.faults outputs.old ≤ O.faults outputs.new }
{
    match outputs.put(
        alloc,
        out,
        number,
        file.name.as_str(),
        file.bytes.as_slice(),
    ) {
        Ok(()) => Ok(()),
        Err(OutsideError::Failed) => Err(Fault::Write),
        Err(OutsideError::NoMemory) => Err(Fault::NoMemory),
    }
}

/// Prints a line.
pub fn print_line<L: Lines>(alloc: Global, text: &str, lines: &mut L) -> Result<(), Fault>
    ensures written { editing.Written (Appends (L.printed lines.old) (L.printed lines.new) text.now) (Appends (L.printed lines.old) (L.printed lines.new) []) (Rose (L.faults lines.old) (L.faults lines.new)) result }
    ensures faults { L.faults lines.old ≤ L.faults lines.new }
{
    match lines.line(alloc, text.as_bytes()) {
        Ok(()) => Ok(()),
        Err(OutsideError::Failed) => Err(Fault::Write),
        Err(OutsideError::NoMemory) => Err(Fault::NoMemory),
    }
}
