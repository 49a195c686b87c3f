// The listings of class files.
ghost use Rattle.std.specs.Prelude.{◌≡◌, Option, Some, IfOk, IsTrue, Err, is_some, map, string_bytes};
ghost use Rattle.sj_outside.specs.Contents.{Parts, file_at};
ghost use Rattle.sj_trees.specs.Refusals as faults;
ghost use Rattle.sjsir.specs.Output as output;
ghost use Rattle.sjsir.specs.Printing as spec;

use crate::answers::Status;
use crate::reading::read_whole;
use crate::stops::Stop;
use sj_names::{Meter, NoMemory};
use sj_outside::{Folders, Lines, OutsideError};
use sj_read::read_class;
use sj_text_print::print_listing;
use sj_trees::{Code, ReadRefusal, Reserved};
use std::alloc::Global;

/// The line of a file, and whether it is a listing.
#[derive(Drop)]
struct FileLine {
    text: Vec<u8>,
    is_listing: bool,
}

/// Prints the line of each file in turn, each as soon as its file is read.
pub fn print_files<F: Folders, L: Lines>(
    alloc: Global,
    files: &[String],
    folders: &mut F,
    lines: &mut L,
) -> Status
    ensures same { F.holds folders.new ≡ F.holds folders.old }
    ensures told { (c : Parts) → F.holds folders.old ≡ Some c → spec.PrintsAll c (map string_bytes files.now) (L.printed lines.old) (L.printed lines.new) result }
    ensures causes { spec.HasCauses (F.faults folders.old) (F.faults folders.new) (L.faults lines.old) (L.faults lines.new) result }
    ensures missing { (c : Parts) → F.holds folders.old ≡ Some c → spec.AreHeld c (map string_bytes files.now) → F.missing folders.new ≡ F.missing folders.old }
    ensures no_usage { result ≡ Status.Usage → ⊥ }
{
    let mut all_listed = true;
    for file in files {
        match print_file(alloc, file.as_str(), folders, lines) {
            Ok(is_listed) => all_listed = all_listed && is_listed,
            Err(stop) => return stop.status(),
        }
    }
    status_of(all_listed)
}

// The status where all files are listed, or else some are refused.
fn status_of(all_listed: bool) -> Status
    ensures { result ≡ output.status_of all_listed }
{
    if all_listed {
        Status::Done
    } else {
        Status::SomeRefused
    }
}

/// Prints the line of a file, and says whether it is a listing.
fn print_file<F: Folders, L: Lines>(
    alloc: Global,
    path: &str,
    folders: &mut F,
    lines: &mut L,
) -> Result<bool, Stop>
    ensures same { F.holds folders.new ≡ F.holds folders.old }
    ensures told { (c : Parts) → F.holds folders.old ≡ Some c → spec.PrintsOne c path.now (L.printed lines.old) (L.printed lines.new) result }
    ensures read_fault { spec.HasCause (result ≡ Err Stop.ReadFault) (F.faults folders.old) (F.faults folders.new) }
    ensures write_fault { spec.HasCause (result ≡ Err Stop.WriteFault) (L.faults lines.old) (L.faults lines.new) }
    ensures missing { (c : Parts) → F.holds folders.old ≡ Some c → IsTrue (is_some (file_at c path.now)) → F.missing folders.new ≡ F.missing folders.old }
{
    let bytes = match read_whole(alloc, path, folders) {
        Ok(bytes) => bytes,
        Err(stop) => return Err(stop),
    };
    let line = file_line(alloc, path, bytes.as_slice())?;
    match lines.line(alloc, line.text.as_slice()) {
        Ok(()) => Ok(line.is_listing),
        Err(OutsideError::Failed) => Err(Stop::WriteFault),
        Err(OutsideError::NoMemory) => Err(Stop::NoMemory),
    }
}

/// The line of a file that has these bytes.
fn file_line(alloc: Global, path: &str, bytes: &[u8]) -> Result<FileLine, Stop>
    ensures line { IfOk result (λ l. output.IsFileLine path.now bytes.now l.is_listing l.text.items) }
    ensures memory { spec.IsMemoryAlone result }
{
    let mut meter = Meter::new();
    match read_class(alloc, bytes, &mut meter) {
        Ok(class) => {
            let mut text = print_listing(alloc, &class)?;
            text.push(b'\n')?;
            Ok(FileLine {
                text,
                is_listing: true,
            })
        }
        Err(ReadRefusal::Bad { code, place }) => Ok(FileLine {
            text: refusal_line(alloc, path, code, place)?.into_bytes(),
            is_listing: false,
        }),
        Err(ReadRefusal::NoMemory) => Err(Stop::NoMemory),
    }
}

/// The line of a file that is refused.
fn refusal_line(alloc: Global, path: &str, code: Code, place: u64) -> Result<String, NoMemory>
    ensures { IfOk result (λ t. string_bytes t ≡ output.refusal_line path.now code place) }
{
    let number = code.number();
    let form = form_words(alloc, code.form())?;
    Ok(format!(in alloc; "{path} refused {number} {place}{form}\n")?)
}

// The name of a form with a space in front, or nothing.
fn form_words(alloc: Global, form: Option<Reserved>) -> Result<String, NoMemory>
    ensures { IfOk result (λ t. string_bytes t ≡ output.form_words form) }
{
    match form {
        Some(form) => {
            let name = form.name();
            Ok(format!(in alloc; " {name}")?)
        }
        None => Ok(String::new(alloc)),
    }
}
