// What is written.
ghost use Rattle.std.specs.Prelude.{◌≡◌, ◌⊎◌, ◌≤◌, [], IfOk, string_bytes};
ghost use Rattle.sj_outside.specs.Faults.{Rose};
ghost use Rattle.sj_outside.specs.Writing.{Appends, Writes, WritesFront};
ghost use Rattle.sjsir.specs.Making as making;
ghost use Rattle.sjsir.specs.Output as output;
ghost use Rattle.sjsir.specs.Writing as spec;

use crate::answers::Status;
use crate::making::Made;
use sj_names::NoMemory;
use sj_outside::{Lines, Outputs, OutsideError};
use std::alloc::Global;

const NO_FILE: &str = "refused: no class file has this class\n";

const TOO_DEEP: &str = "refused: more than 600 parentheses stand one in another\n";

/// Prints the last text of a run, and answers `status` where that goes well.
pub fn print_text<L: Lines>(alloc: Global, status: Status, text: &str, lines: &mut L) -> Status
    ensures ends { spec.Ends status (Appends (L.printed lines.old) (L.printed lines.new) text.now) (Appends (L.printed lines.old) (L.printed lines.new) []) (Rose (L.faults lines.old) (L.faults lines.new)) result }
    ensures faults { L.faults lines.old ≤ L.faults lines.new }
{
    match lines.line(alloc, text.as_bytes()) {
        Ok(()) => status,
        Err(OutsideError::Failed) => Status::WriteFault,
        Err(OutsideError::NoMemory) => Status::NoMemory,
    }
}

/// Puts what was made under the name `out`, or prints why nothing was.
pub fn write_made<O: Outputs, L: Lines>(
    alloc: Global,
    out: &str,
    made: &Made,
    outputs: &mut O,
    lines: &mut L,
) -> Status
    ensures ends { let written = making.output_of out.now made.now in
        spec.Ends written.status (Writes (O.puts outputs.old) (O.puts outputs.new) (L.printed lines.old) (L.printed lines.new) written.events) (WritesFront (O.puts outputs.old) (O.puts outputs.new) (L.printed lines.old) (L.printed lines.new) written.events) (Rose (O.faults outputs.old) (O.faults outputs.new) ⊎ Rose (L.faults lines.old) (L.faults lines.new)) result }
    ensures output_faults { O.faults outputs.old ≤ O.faults outputs.new }
    ensures line_faults { L.faults lines.old ≤ L.faults lines.new }
{
    match made {
        Made::File(bytes) => match outputs.put(alloc, ".", 1, out, bytes.as_slice()) {
            Ok(()) => Status::Done,
            Err(OutsideError::Failed) => Status::WriteFault,
            Err(OutsideError::NoMemory) => Status::NoMemory,
        },
        Made::NoListing(place) => match no_listing_line(alloc, *place) {
            Ok(text) => print_text(alloc, Status::SomeRefused, text.as_str(), lines),
            Err(NoMemory) => Status::NoMemory,
        },
        Made::NoFile => print_text(alloc, Status::SomeRefused, NO_FILE, lines),
        Made::TooDeep => print_text(alloc, Status::SomeRefused, TOO_DEEP, lines),
    }
}

/// The line where a text is no listing.
fn no_listing_line(alloc: Global, place: u64) -> Result<String, NoMemory>
    ensures { IfOk result (λ text. string_bytes text ≡ output.no_listing_line place) }
{
    Ok(format!(in alloc; "refused {place}\n")?)
}
