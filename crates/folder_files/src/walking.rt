// The walk over a folder and the folders below it.
ghost use Rattle.std.specs.Prelude.{◌≡◌, ◌++◌, true, Some, IfOk, OnOk, IsTrue, is_some, string_bytes};
ghost use Rattle.sj_outside.specs.Contents.{Parts, folder_at};
ghost use Rattle.sj_outside.specs.Faults.{HasCause};
ghost use Rattle.folder_files.specs.Files.{is_class_file};
ghost use Rattle.folder_files.specs.Walking.{ArePathsOf, Gathers, GathersEntry, GathersFolder, gathered_file, path_in, prefix_in};

use sj_names::{NoMemory, Text};
use sj_outside::{Entry, Folders, OutsideError};
use std::alloc::Global;

/// The most folders above a file's name.
const DEEPEST: u8 = 32;

/// A folder on the walk.
#[derive(Drop)]
struct Here<'p> {
    path: &'p str,
    /// What the paths of its files begin with.
    prefix: &'p str,
    /// How many more folders may stand above a file's name.
    left: u8,
}

/// The paths of the class files of the folder at `path`, in byte order.
pub fn paths_in_order<F: Folders>(
    alloc: Global,
    path: &str,
    folders: &mut F,
) -> Result<Vec<Text>, OutsideError>
    ensures same { F.holds folders.new ≡ F.holds folders.old }
    ensures told { (c : Parts) → F.holds folders.old ≡ Some c → IfOk result (λ paths. ArePathsOf c path.now paths.items) }
    ensures cause { HasCause (F.faults folders.old) (F.faults folders.new) result }
    ensures missing { (c : Parts) → F.holds folders.old ≡ Some c → IsTrue (is_some (folder_at c path.now)) → F.missing folders.new ≡ F.missing folders.old }
{
    let here = Here {
        path,
        prefix: "",
        left: DEEPEST,
    };
    let mut paths = Vec::new(alloc);
    gather(alloc, &here, folders, &mut paths)?;
    paths.sort_unstable();
    Ok(paths)
}

/// Appends the paths of the class files of a folder, in the order in which they are listed.
#[cycle(walk)]
fn gather<F: Folders>(
    alloc: Global,
    here: &Here<'_>,
    folders: &mut F,
    paths: &mut Vec<Text>,
) -> Result<(), OutsideError>
    ensures same { F.holds folders.new ≡ F.holds folders.old }
    ensures told { (c : Parts) → F.holds folders.old ≡ Some c → OnOk result (Gathers c here.now.path.now here.now.prefix.now here.now.left paths.old.items paths.new.items) }
    ensures cause { HasCause (F.faults folders.old) (F.faults folders.new) result }
    ensures missing { (c : Parts) → F.holds folders.old ≡ Some c → IsTrue (is_some (folder_at c here.now.path.now)) → F.missing folders.new ≡ F.missing folders.old }
{
    let entries = folders.list(alloc, here.path)?;
    for entry in &entries {
        gather_entry(alloc, here, entry, folders, paths)?;
    }
    Ok(())
}

/// Appends the path of a class file, or those of the class files of a folder.
#[cycle(walk)]
fn gather_entry<F: Folders>(
    alloc: Global,
    here: &Here<'_>,
    entry: &Entry,
    folders: &mut F,
    paths: &mut Vec<Text>,
) -> Result<(), OutsideError>
    ensures same { F.holds folders.new ≡ F.holds folders.old }
    ensures told { (c : Parts) → F.holds folders.old ≡ Some c → OnOk result (GathersEntry c here.now.path.now here.now.prefix.now here.now.left entry.now paths.old.items paths.new.items) }
    ensures cause { HasCause (F.faults folders.old) (F.faults folders.new) result }
    ensures missing { (c : Parts) → F.holds folders.old ≡ Some c → (entry.now.is_folder ≡ true → IsTrue (is_some (folder_at c (path_in here.now.path.now entry.now.name)))) → F.missing folders.new ≡ F.missing folders.old }
{
    if entry.is_folder {
        gather_folder(alloc, here, entry.name.as_str(), folders, paths)
    } else {
        gather_file(alloc, here.prefix, entry.name.as_str(), paths)?;
        Ok(())
    }
}

/// Appends the paths of the class files of the folder `name`, unless too many folders stand above them.
#[cycle(walk)]
fn gather_folder<F: Folders>(
    alloc: Global,
    here: &Here<'_>,
    name: &str,
    folders: &mut F,
    paths: &mut Vec<Text>,
) -> Result<(), OutsideError>
    ensures same { F.holds folders.new ≡ F.holds folders.old }
    ensures told { (c : Parts) → F.holds folders.old ≡ Some c → OnOk result (GathersFolder c here.now.path.now here.now.prefix.now here.now.left name.now paths.old.items paths.new.items) }
    ensures cause { HasCause (F.faults folders.old) (F.faults folders.new) result }
    ensures missing { (c : Parts) → F.holds folders.old ≡ Some c → IsTrue (is_some (folder_at c (path_in here.now.path.now name.now))) → F.missing folders.new ≡ F.missing folders.old }
{
    if here.left == 0 {
        return Ok(());
    }
    let path = path_in(alloc, here.path, name)?;
    let prefix = prefix_in(alloc, here.prefix, name)?;
    let inner = Here {
        path: path.as_str(),
        prefix: prefix.as_str(),
        left: here.left - 1,
    };
    gather(alloc, &inner, folders, paths)
}

/// Appends the path of the file `name`, if it is a class file.
fn gather_file(
    alloc: Global,
    prefix: &str,
    name: &str,
    paths: &mut Vec<Text>,
) -> Result<(), NoMemory>
    ensures { OnOk result (paths.new.items ≡ paths.old.items ++ gathered_file prefix.now name.now) }
{
    if is_class_file(name) {
        let path = format!(in alloc; "{prefix}{name}")?;
        paths.push(Text::from_string(path)?)?;
    }
    Ok(())
}

fn is_class_file(name: &str) -> bool
    ensures { result ≡ is_class_file name.now }
{
    name.as_bytes().ends_with(b".sjsir")
}

/// The path of what has this name in the folder.
pub fn path_in(alloc: Global, folder: &str, name: &str) -> Result<String, NoMemory>
    ensures { IfOk result (λ text. string_bytes text ≡ path_in folder.now name.now) }
{
    Ok(format!(in alloc; "{folder}/{name}")?)
}

fn prefix_in(alloc: Global, prefix: &str, name: &str) -> Result<String, NoMemory>
    ensures { IfOk result (λ text. string_bytes text ≡ prefix_in prefix.now name.now) }
{
    Ok(format!(in alloc; "{prefix}{name}/")?)
}
