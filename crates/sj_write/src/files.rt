// Class files.
ghost use Rattle.std.specs.Prelude.{◌≡◌, [], ◌++◌, OnOk, IfOk, map};
ghost use Rattle.std.specs.List.{flat_map};
ghost use Rattle.sj_units.specs.Modified.{modified_bytes};
ghost use Rattle.sj_write_spec.specs.Fields.{HasFiles, list_fields};
ghost use Rattle.sj_write_spec.specs.References.{method_name_fields};
ghost use Rattle.sj_write_spec.specs.Classes.{class_fields, NamesItsFiles};
ghost use Rattle.sj_write_spec.specs.Written.{header_bytes, counted_bytes, table_bytes, written_class};
ghost use Rattle.sj_write.specs.Writing.{put, unwritten, knowing, finished};

use crate::entries::StringEntry;
use crate::numbers::{append, append_count, append_number, append_short};
use crate::writer::{ClassParts, ClassWriter};
use indexmap::IndexSet;
use sj_names::{MethodName, NoMemory, Text};
use sj_trees::ClassDef;
use sj_units::write_modified;
use std::alloc::Global;

// The first four bytes of a class file.
const MAGIC: u32 = 0xCAFE_4A53;

// The version of the format.
const VERSION: &str = "1.0-i1";

/// The file that a class is written as, each position of which names one of its source files: the header, the tables of what the
/// class uses, each entry once and in the order of first use, and the class with its fields in front of its methods. The hashes of
/// methods are kept. Numbers are big-endian. `NoMemory` where no memory is left.
pub fn write_class(alloc: Global, c: &ClassDef) -> Result<Vec<u8>, NoMemory>
    requires { NamesItsFiles c.now }
    ensures { IfOk result (λ file. file.items ≡ written_class c.now) }
{
    let written = class_written(alloc, c)?;
    file_of(alloc, written)
}

// What is written of the class behind the tables, with what it uses.
fn class_written(alloc: Global, c: &ClassDef) -> Result<ClassWriter, NoMemory>
    requires { HasFiles (class_fields c.now) }
    ensures { IfOk result (λ written. written ≡ put (class_fields c.now) unwritten) }
{
    let mut writer = ClassWriter::new(alloc);
    writer.class(c)?;
    Ok(writer)
}

// The file with what is written.
fn file_of(alloc: Global, written: ClassWriter) -> Result<Vec<u8>, NoMemory>
    ensures { IfOk result (λ file. file.items ≡ finished [] written) }
{
    let mut file = Vec::new(alloc);
    append_file(alloc, &mut file, written)?;
    Ok(file)
}

// Appends the header, the tables and the bytes behind them.
fn append_file(alloc: Global, file: &mut Vec<u8>, written: ClassWriter) -> Result<(), NoMemory>
    ensures { OnOk result (file.new.items ≡ finished file.old.items written) }
{
    let parts = written.into_parts();
    append_header(file)?;
    append_text_tables(file, parts.files.as_slice(), parts.names.as_slice())?;
    append_other_parts(alloc, file, parts)
}

fn append_header(file: &mut Vec<u8>) -> Result<(), NoMemory>
    ensures { OnOk result (file.new.items ≡ file.old.items ++ header_bytes) }
{
    append_number(file, MAGIC)?;
    append_short(file, 6)?;
    append(file, VERSION.as_bytes())
}

// Appends the tables of source files and of names.
fn append_text_tables(file: &mut Vec<u8>, files: &[Text], names: &[Text]) -> Result<(), NoMemory>
    ensures { OnOk result (file.new.items ≡ file.old.items ++ table_bytes counted_bytes files.now ++ table_bytes counted_bytes names.now) }
{
    append_texts(file, files)?;
    append_texts(file, names)
}

// Appends the tables of method names and of strings, and the bytes of the class.
fn append_other_parts(alloc: Global, file: &mut Vec<u8>, parts: ClassParts) -> Result<(), NoMemory>
    ensures { OnOk result (file.new.items ≡ file.old.items ++ (put (list_fields method_name_fields parts.methods.keys) (knowing parts.names.keys)).text ++ table_bytes (λ u. counted_bytes (modified_bytes u)) parts.strings.keys ++ parts.out.items) }
{
    append_methods(alloc, file, parts.names, parts.methods.as_slice())?;
    append_strings(alloc, file, parts.strings.as_slice())?;
    append(file, &parts.out)
}

fn append_methods(
    alloc: Global,
    file: &mut Vec<u8>,
    names: IndexSet<Text>,
    methods: &[MethodName],
) -> Result<(), NoMemory>
    ensures { OnOk result (file.new.items ≡ file.old.items ++ (put (list_fields method_name_fields methods.now) (knowing names.keys)).text) }
{
    let mut entries = ClassWriter::knowing(alloc, names);
    entries.method_names(methods)?;
    append(file, entries.text())
}

fn append_texts(file: &mut Vec<u8>, texts: &[Text]) -> Result<(), NoMemory>
    ensures { OnOk result (file.new.items ≡ file.old.items ++ table_bytes counted_bytes texts.now) }
{
    append_count(file, texts.len())?;
    append_each_text(file, texts)
}

fn append_each_text(file: &mut Vec<u8>, texts: &[Text]) -> Result<(), NoMemory>
    ensures { OnOk result (file.new.items ≡ file.old.items ++ flat_map counted_bytes texts.now) }
{
    for each in texts {
        append_counted(file, each.as_str().as_bytes())?;
    }
    Ok(())
}

// Appends bytes with their number in front.
fn append_counted(file: &mut Vec<u8>, bytes: &[u8]) -> Result<(), NoMemory>
    ensures { OnOk result (file.new.items ≡ file.old.items ++ counted_bytes bytes.now) }
{
    append_count(file, bytes.len())?;
    append(file, bytes)
}

fn append_strings(
    alloc: Global,
    file: &mut Vec<u8>,
    strings: &[StringEntry],
) -> Result<(), NoMemory>
    ensures { OnOk result (file.new.items ≡ file.old.items ++ table_bytes (λ u. counted_bytes (modified_bytes u)) strings.now) }
{
    append_count(file, strings.len())?;
    append_each_string(alloc, file, strings)
}

fn append_each_string(
    alloc: Global,
    file: &mut Vec<u8>,
    strings: &[StringEntry],
) -> Result<(), NoMemory>
    ensures { OnOk result (file.new.items ≡ file.old.items ++ flat_map (λ u. counted_bytes (modified_bytes u)) strings.now) }
{
    for each in strings {
        append_string(alloc, file, each)?;
    }
    Ok(())
}

fn append_string(alloc: Global, file: &mut Vec<u8>, string: &StringEntry) -> Result<(), NoMemory>
    ensures { OnOk result (file.new.items ≡ file.old.items ++ counted_bytes (modified_bytes string.now)) }
{
    match write_modified(alloc, string.units()) {
        Ok(bytes) => append_counted(file, &bytes),
        Err(_) => Err(NoMemory),
    }
}

impl ClassWriter {
    // The table of method names: how many there are, and each.
    fn method_names(&mut self, methods: &[MethodName]) -> Result<(), NoMemory>
        ensures { OnOk result (self.new ≡ put (list_fields method_name_fields methods.now) self.old) }
    {
        self.count(methods.len())?;
        for each in methods {
            self.method_name(each)?;
        }
        Ok(())
    }
}
