// Folders are edited one after the other.
ghost use Rattle.std.specs.Prelude.{◌≡◌, ◌⊎◌, ◌≤◌, ◌<◌, ◌^◌, Some, Err, IfOk, IsTrue, is_some, length};
ghost use Rattle.sj_outside.specs.Contents.{Parts, folder_at};
ghost use Rattle.sj_outside.specs.Faults.{Rose};
ghost use Rattle.folder_files.specs.Files.{HasRead};
ghost use Rattle.sjslink.specs.Editing as editing;

use crate::reports::{accepted_line, refused_line};
use crate::writing::{print_line, put_edit};
use folder_files::read_folder;
use sj_names::{Folder, Items, Meter, NoMemory, SourceFile};
use sj_outside::{Folders, Lines, Outputs, OutsideError};
use sj_session::{EditRefusal, Session};
use sj_words::Link;
use sj_workshop::Workshop;
use std::alloc::Global;

/// How a run ends before its time.
pub enum Fault {
    /// A folder or a file could not be read.
    Read,
    /// A file or a line could not be written.
    Write,
    /// No memory was left.
    NoMemory,
}

impl From<NoMemory> for Fault {
    ghost use Rattle.std.specs.Prelude.{◌≡◌};
    ghost use Rattle.sjslink.specs.declared.editing.Fault.TheVariants.{NoMemory};

    ghost from_gives = { λ _ e. e ≡ NoMemory };

    fn from(_error: NoMemory) -> Fault {
        Fault::NoMemory
    }
}

/// Edits the session by each folder of the command, and writes what each edit comes to; says whether all were accepted.
pub fn edit_folders<F: Folders, O: Outputs, L: Lines>(
    alloc: Global,
    link: &Link,
    session: &mut Session,
    folders: &mut F,
    outputs: &mut O,
    lines: &mut L,
) -> Result<bool, Fault>
    requires { length link.now.folders < 2 ^ 32 }
    ensures ends { (c : Parts) → F.holds folders.old ≡ Some c → editing.EditsEnd c link.now.out session.old.entries session.old.options.style link.now.folders (O.puts outputs.old) (O.puts outputs.new) (L.printed lines.old) (L.printed lines.new) result }
    ensures missing { (c : Parts) → F.holds folders.old ≡ Some c → editing.AreHeld c link.now.folders → F.missing folders.new ≡ F.missing folders.old }
    ensures same { F.holds folders.new ≡ F.holds folders.old }
    ensures read_faults { F.faults folders.old ≤ F.faults folders.new }
    ensures output_faults { O.faults outputs.old ≤ O.faults outputs.new }
    ensures line_faults { L.faults lines.old ≤ L.faults lines.new }
    ensures read_fault { result ≡ Err Fault.Read → Rose (F.faults folders.old) (F.faults folders.new) }
    ensures write_fault { result ≡ Err Fault.Write → Rose (O.faults outputs.old) (O.faults outputs.new) ⊎ Rose (L.faults lines.old) (L.faults lines.new) }
{
    let mut work = Workshop {
        meter: Meter::new(),
    };
    let mut all_accepted = true;
    let paths = link.folders.as_slice();
    for place in 0..paths.len() {
        let number = (place + 1) as u32;
        let files = read_files(alloc, paths[place].as_str(), folders)?;
        let is_accepted = edit_folder(
            alloc,
            link.out.as_str(),
            number,
            files,
            session,
            &mut work,
            outputs,
            lines,
        )?;
        all_accepted = all_accepted && is_accepted;
    }
    Ok(all_accepted)
}

fn read_files<F: Folders>(
    alloc: Global,
    path: &str,
    folders: &mut F,
) -> Result<Vec<SourceFile>, Fault>
    ensures same { F.holds folders.new ≡ F.holds folders.old }
    ensures told { (c : Parts) → F.holds folders.old ≡ Some c → IfOk result (λ files. HasRead c path.now files.items) }
    ensures faults { F.faults folders.old ≤ F.faults folders.new }
    ensures read_fault { result ≡ Err Fault.Read → Rose (F.faults folders.old) (F.faults folders.new) }
    ensures no_write_fault { result ≡ Err Fault.Write → ⊥ }
    ensures missing { (c : Parts) → F.holds folders.old ≡ Some c → IsTrue (is_some (folder_at c path.now)) → F.missing folders.new ≡ F.missing folders.old }
{
    match read_folder(alloc, path, folders) {
        Ok(files) => Ok(files),
        Err(OutsideError::Failed) => Err(Fault::Read),
        Err(OutsideError::NoMemory) => Err(Fault::NoMemory),
    }
}

// Edits the session by a folder of these files, and writes what the edit comes to; says whether it was accepted.
fn edit_folder<O: Outputs, L: Lines>(
    alloc: Global,
    out: &str,
    number: u32,
    files: Vec<SourceFile>,
    session: &mut Session,
    work: &mut Workshop,
    outputs: &mut O,
    lines: &mut L,
) -> Result<bool, Fault>
    ensures same { session.new.entries ≡ session.old.entries }
    ensures same_options { session.new.options ≡ session.old.options }
    ensures ends { editing.EditEnds out.now session.old.entries session.old.options.style number files.items (O.puts outputs.old) (O.puts outputs.new) (L.printed lines.old) (L.printed lines.new) result }
    ensures output_faults { O.faults outputs.old ≤ O.faults outputs.new }
    ensures line_faults { L.faults lines.old ≤ L.faults lines.new }
    ensures write_fault { result ≡ Err Fault.Write → Rose (O.faults outputs.old) (O.faults outputs.new) ⊎ Rose (L.faults lines.old) (L.faults lines.new) }
{
    let folder = Folder {
        files: Items::from_vec(files),
    };
    match session.edit(alloc, folder, work) {
        Ok(report) => {
            let text = accepted_line(alloc, number, &report)?;
            put_edit(
                alloc,
                out,
                number,
                session.files(),
                text.as_str(),
                outputs,
                lines,
            )?;
            Ok(true)
        }
        Err(EditRefusal::Refused { code, place }) => {
            let text = refused_line(alloc, number, code, place.as_str())?;
            print_line(alloc, text.as_str(), lines)?;
            Ok(false)
        }
        Err(EditRefusal::NoMemory) => Err(Fault::NoMemory),
    }
}
