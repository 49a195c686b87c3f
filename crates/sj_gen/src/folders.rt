// The generated folder.
ghost use Rattle.std.specs.Prelude.{◌≡◌, ◌≤◌, IfOk};
ghost use Rattle.sj_gen.specs.Classes as classes;
ghost use Rattle.sj_gen.specs.Folder as spec;
ghost use Rattle.sj_write_spec.specs.Classes.{NamesItsFiles};

use crate::classes::{numbered_class, object_class};
use sj_names::{Bytes, Folder, Items, NoMemory, SourceFile, Text};
use sj_trees::ClassDef;
use sj_write::write_class;
use std::alloc::Global;

/// A folder of `n + 1` class files in byte order of their paths: `java.lang.Object`, whose static `main;V` logs what the function of
/// the last class gives for 0, and `G0`, `G1` and so on, each with a static function `f;I;I`: that of `G0` gives its parameter, or twice
/// that where the folder is `edited`, and that of `Gk` calls that of the class before it with k more. `NoMemory` where no memory is
/// left.
pub fn folder(alloc: Global, n: u32, edited: bool) -> Result<Folder, NoMemory>
    requires at_least { 1 ≤ n }
    requires at_most { n ≤ 20000 }
    ensures { IfOk result (λ folder. spec.IsGenerated n edited folder.files) }
{
    let mut files = class_files(alloc, n, edited)?;
    files.push(object_file(alloc, n)?)?;
    files.sort_by(|one, other| one.path.cmp(&other.path))?;
    Ok(Folder {
        files: Items::from_vec(files),
    })
}

// The files of the first `n` classes, by number.
fn class_files(alloc: Global, n: u32, edited: bool) -> Result<Vec<SourceFile>, NoMemory>
    requires { n ≤ 20000 }
    ensures { IfOk result (λ files. files.items ≡ spec.class_files edited n) }
{
    let mut files = Vec::new(alloc);
    for number in 0..n {
        files.push(class_file(alloc, number, edited)?)?;
    }
    Ok(files)
}

fn class_file(alloc: Global, number: u32, edited: bool) -> Result<SourceFile, NoMemory>
    requires { number ≤ 20000 }
    ensures { IfOk result (λ file. file ≡ spec.file_of (classes.class_of edited number)) }
{
    let class = numbered_class(alloc, number, edited)?;
    file(alloc, &class)
}

fn object_file(alloc: Global, n: u32) -> Result<SourceFile, NoMemory>
    requires { 1 ≤ n }
    ensures { IfOk result (λ file. file ≡ spec.file_of (classes.object_of n)) }
{
    let class = object_class(alloc, n)?;
    file(alloc, &class)
}

// The file of a class.
#[tactic(auto, unfolding(crate::specs::Folder::file_of))]
fn file(alloc: Global, class: &ClassDef) -> Result<SourceFile, NoMemory>
    requires { NamesItsFiles class.now }
    ensures { IfOk result (λ file. file ≡ spec.file_of class.now) }
{
    let path = class_path(alloc, class.name.text())?;
    let bytes = write_class(alloc, class)?;
    Ok(SourceFile {
        path,
        bytes: Bytes::from_vec(bytes),
    })
}

// The path of the file of a class.
fn class_path(alloc: Global, name: &str) -> Result<Text, NoMemory>
    ensures { IfOk result (λ path. path ≡ spec.path_of name.now) }
{
    let path = format!(in alloc; "{name}.sjsir")?;
    Ok(Text::from_string(path)?)
}
