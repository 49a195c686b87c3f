// Class files.
ghost use Rattle.std.specs.Prelude.{◌≡◌, Ok, Err};
ghost use Rattle.sj_names.specs.Counting.{raised};
ghost use Rattle.sj_trees.specs.declared.classes.ClassDef.{ClassDef};
ghost use Rattle.sj_trees.specs.declared.refusals.Code.{Code};
ghost use Rattle.sj_read_spec.specs.Files.{magic_at, version_text_at, version_at, tables_at, contents_at, file_of};
ghost use Rattle.sj_read_spec.specs.Classes.{class_at};
ghost use Rattle.sj_read.specs.Parts.{text_tables_at, more_tables_at};
ghost use Rattle.sj_read_trees.specs.Stops.{Gives};
ghost use Rattle.sj_read_spec.specs.Answers.{Reads};

use crate::classes::{class_of_parts, class_parts_of};
use sj_names::{Meter, MethodName, Shared, Text};
use sj_read_trees::{
    FileTables, MethodNameItem, NameEntry, NameItem, Stop, StringItem, TextItem, bad, bytes_of,
    list_of, number_of, short_of,
};
use sj_trees::{ClassDef, Code, ReadRefusal};
use sj_units::Units;
use std::alloc::Global;

// The first four bytes of a class file.
const MAGIC: u32 = 0xCAFE_4A53;

// The version of the format.
const VERSION: &[u8; 6] = b"1.0-i1";

// The bytes behind the first four.
fn after_magic(bytes: &[u8]) -> Result<(u32, &[u8]), Stop>
    ensures { Gives (λ x. (x.0, x.1.now)) result (magic_at bytes.now) }
{
    let (magic, rest) = number_of(bytes)?;
    if magic != MAGIC {
        return Err(bad(Code::BadMagic, bytes));
    }
    Ok((magic, rest))
}

// The text of a version, and the bytes behind it.
fn version_text_of(bytes: &[u8]) -> Result<(&[u8], &[u8]), Stop>
    ensures { Gives (λ x. (x.0.now, x.1.now)) result (version_text_at bytes.now) }
{
    let (count, rest) = short_of(bytes)?;
    bytes_of(count as usize, rest)
}

// The bytes behind the version.
fn version_of(bytes: &[u8]) -> Result<(&[u8], &[u8]), Stop>
    ensures { Gives (λ x. (x.0.now, x.1.now)) result (version_at bytes.now) }
{
    let (version, rest) = version_text_of(bytes)?;
    if version != VERSION.as_slice() {
        return Err(bad(Code::BadVersion, bytes));
    }
    Ok((version, rest))
}

/// The two tables of texts.
#[derive(Drop)]
struct TextTables {
    files: Shared<Text>,
    names: Vec<NameEntry>,
}

/// The tables of method names and of strings.
#[derive(Drop)]
struct MoreTables {
    methods: Vec<MethodName>,
    strings: Vec<Units>,
}

// The two tables of texts.
#[tactic(auto, unfolding(crate::specs::Parts::text_tables_at))]
fn text_tables_of(alloc: Global, bytes: &[u8]) -> Result<(TextTables, &[u8]), Stop>
    ensures { Gives (λ x. ((x.0.files, x.0.names.items), x.1.now)) result (text_tables_at bytes.now) }
{
    let (files, rest) = list_of(alloc, &TextItem, bytes)?;
    let files = Shared::from_vec(files)?;
    let (names, rest) = list_of(alloc, &NameItem, rest)?;
    Ok((TextTables { files, names }, rest))
}

// The tables of method names and of strings.
#[tactic(auto, unfolding(crate::specs::Parts::more_tables_at))]
fn more_tables_of<'a>(
    alloc: Global,
    names: &[NameEntry],
    bytes: &'a [u8],
) -> Result<(MoreTables, &'a [u8]), Stop>
    ensures { Gives (λ x. ((x.0.methods.items, x.0.strings.items), x.1.now)) result (more_tables_at names.now bytes.now) }
{
    let (methods, rest) = list_of(alloc, &MethodNameItem(names), bytes)?;
    let (strings, rest) = list_of(alloc, &StringItem, rest)?;
    Ok((MoreTables { methods, strings }, rest))
}

// The four tables.
#[tactic(auto, using(crate::proofs::PartsLemmas::tables_in_parts))]
fn tables_of(alloc: Global, bytes: &[u8]) -> Result<(FileTables, &[u8]), Stop>
    ensures { Gives (λ x. (x.0, x.1.now)) result (tables_at bytes.now) }
{
    let (texts, rest) = text_tables_of(alloc, bytes)?;
    let (more, rest) = more_tables_of(alloc, texts.names.as_slice(), rest)?;
    Ok((
        FileTables::new(texts.files, texts.names, more.methods, more.strings),
        rest,
    ))
}

// A class with its tables.
#[tactic(auto, using(crate::proofs::PartsLemmas::class_in_parts))]
fn class_of(alloc: Global, tables: FileTables, bytes: &[u8]) -> Result<(ClassDef, &[u8]), Stop>
    ensures { Gives (λ x. (x.0, x.1.now)) result (class_at tables bytes.now) }
{
    let (parts, rest) = class_parts_of(alloc, &tables, bytes)?;
    Ok((class_of_parts(tables, parts), rest))
}

// A class and what stands in front of it.
#[tactic(auto, unfolding(sj_read_spec::specs::Files::contents_at))]
fn contents_of(alloc: Global, bytes: &[u8]) -> Result<(ClassDef, &[u8]), Stop>
    ensures { Gives (λ x. (x.0, x.1.now)) result (contents_at bytes.now) }
{
    let (_magic, rest) = after_magic(bytes)?;
    let (_version, rest) = version_of(rest)?;
    let (tables, rest) = tables_of(alloc, rest)?;
    class_of(alloc, tables, rest)
}

// The class of a file.
#[tactic(auto, unfolding(sj_read_spec::specs::Files::file_of))]
fn file_of(alloc: Global, bytes: &[u8]) -> Result<ClassDef, Stop>
    ensures { Gives (λ c. c) result (file_of bytes.now) }
{
    let (class, rest) = contents_of(alloc, bytes)?;
    match rest {
        [] => Ok(class),
        [_, ..] => Err(bad(Code::Trailing, rest)),
    }
}

/// Reads a class file, and counts one class read whatever comes of it.
pub fn read_class(alloc: Global, bytes: &[u8], meter: &mut Meter) -> Result<ClassDef, ReadRefusal>
    ensures answer { Reads bytes.now result }
    ensures counted { meter.new ≡ record meter.old { read = raised meter.old.read } }
{
    meter.raise_read();
    match file_of(alloc, bytes) {
        Ok(class) => Ok(class),
        Err(Stop::NoMemory) => Err(ReadRefusal::NoMemory),
        Err(Stop::Bad(fault)) => Err(ReadRefusal::Bad {
            code: fault.code,
            place: bytes.len().saturating_sub(fault.left) as u64,
        }),
    }
}
