// The four tables in front of the class, and how the class names their entries.
ghost use Rattle.std.specs.Prelude.{◌≡◌, List, ℕ};
ghost use Rattle.sj_names.specs.Grammar.{is_class_name, is_plain_name, is_simple_name};
ghost use Rattle.sj_read_spec.specs.Tables.{entry_at, name_at, text_at, string_at};
ghost use Rattle.sj_read_spec.specs.Types.{position_at};
ghost use Rattle.sj_read_trees.specs.Stops.{Gives};

use crate::fields::{below_of, entry_of, number_of, string_of, text_of};
use crate::items::Item;
use crate::names::NameEntry;
use crate::stops::{Stop, bad};
use sj_names::{ClassName, FieldName, LabelName, LocalName, MethodName, SimpleName, Text};
use sj_trees::{Code, Position};
use sj_units::Units;
use std::alloc::Global;

/// A text of a table.
#[derive(Drop)]
pub struct TextItem;

impl Item for TextItem {
    ghost use Rattle.std.specs.Prelude.{List, ℕ};
    ghost use Rattle.sj_read_spec.specs.Tables.{text_at};

    type Value = Text;

    ghost Seen = { List ℕ };

    ghost seen = { λ t. t };

    ghost reading = { λ _. text_at };

    fn read<'a>(&self, alloc: Global, bytes: &'a [u8]) -> Result<(Text, &'a [u8]), Stop> {
        text_of(alloc, bytes)
    }
}

/// A name of a table.
#[derive(Drop)]
pub struct NameItem;

impl Item for NameItem {
    ghost use Rattle.std.specs.Prelude.{List, ℕ};
    ghost use Rattle.sj_read_spec.specs.Tables.{text_at};

    type Value = NameEntry;

    ghost Seen = { List ℕ };

    ghost seen = { λ t. t };

    ghost reading = { λ _. text_at };

    fn read<'a>(&self, alloc: Global, bytes: &'a [u8]) -> Result<(NameEntry, &'a [u8]), Stop> {
        let (text, rest) = text_of(alloc, bytes)?;
        Ok((NameEntry::new(text), rest))
    }
}

/// A string of a table.
#[derive(Drop)]
pub struct StringItem;

impl Item for StringItem {
    ghost use Rattle.std.specs.Prelude.{List, ℕ};
    ghost use Rattle.sj_read_spec.specs.Tables.{string_at};

    type Value = Units;

    ghost Seen = { List ℕ };

    ghost seen = { λ t. t };

    ghost reading = { λ _. string_at };

    fn read<'a>(&self, alloc: Global, bytes: &'a [u8]) -> Result<(Units, &'a [u8]), Stop> {
        string_of(alloc, bytes)
    }
}

/// The name of a class at an index.
pub fn class_name_of<'a>(
    names: &[NameEntry],
    bytes: &'a [u8],
) -> Result<(ClassName, &'a [u8]), Stop>
    ensures { Gives (λ x. (x.0, x.1.now)) result (name_at is_class_name names.now bytes.now) }
{
    let (entry, rest) = entry_of(names, bytes)?;
    match entry.class_name()? {
        Some(name) => Ok((name, rest)),
        None => Err(bad(Code::BadName, bytes)),
    }
}

// A simple name at an index.
pub fn simple_name_of<'a>(
    names: &[NameEntry],
    bytes: &'a [u8],
) -> Result<(SimpleName, &'a [u8]), Stop>
    ensures { Gives (λ x. (x.0, x.1.now)) result (name_at is_simple_name names.now bytes.now) }
{
    let (entry, rest) = entry_of(names, bytes)?;
    match entry.simple_name()? {
        Some(name) => Ok((name, rest)),
        None => Err(bad(Code::BadName, bytes)),
    }
}

/// The name of a field at an index.
pub fn field_name_of<'a>(
    names: &[NameEntry],
    bytes: &'a [u8],
) -> Result<(FieldName, &'a [u8]), Stop>
    ensures { Gives (λ x. (x.0, x.1.now)) result (name_at is_plain_name names.now bytes.now) }
{
    let (entry, rest) = entry_of(names, bytes)?;
    match entry.field_name()? {
        Some(name) => Ok((name, rest)),
        None => Err(bad(Code::BadName, bytes)),
    }
}

/// The name of a local variable at an index.
pub fn local_name_of<'a>(
    names: &[NameEntry],
    bytes: &'a [u8],
) -> Result<(LocalName, &'a [u8]), Stop>
    ensures { Gives (λ x. (x.0, x.1.now)) result (name_at is_plain_name names.now bytes.now) }
{
    let (entry, rest) = entry_of(names, bytes)?;
    match entry.local_name()? {
        Some(name) => Ok((name, rest)),
        None => Err(bad(Code::BadName, bytes)),
    }
}

// The name of a label at an index.
pub fn label_name_of<'a>(
    names: &[NameEntry],
    bytes: &'a [u8],
) -> Result<(LabelName, &'a [u8]), Stop>
    ensures { Gives (λ x. (x.0, x.1.now)) result (name_at is_plain_name names.now bytes.now) }
{
    let (entry, rest) = entry_of(names, bytes)?;
    match entry.label_name()? {
        Some(name) => Ok((name, rest)),
        None => Err(bad(Code::BadName, bytes)),
    }
}

/// The name of a method at an index.
pub fn method_name_of<'a>(
    methods: &[MethodName],
    bytes: &'a [u8],
) -> Result<(MethodName, &'a [u8]), Stop>
    ensures { Gives (λ x. (x.0, x.1.now)) result (entry_at methods.now bytes.now) }
{
    let (method, rest) = entry_of(methods, bytes)?;
    Ok((method.copied()?, rest))
}

// The string at an index.
pub fn units_of<'a>(strings: &[Units], bytes: &'a [u8]) -> Result<(Units, &'a [u8]), Stop>
    ensures { Gives (λ x. (x.0, x.1.now)) result (entry_at strings.now bytes.now) }
{
    let (units, rest) = entry_of(strings, bytes)?;
    Ok((units.copied()?, rest))
}

/// A position in one of so many source files.
#[tactic(auto, unfolding(sj_read_spec::specs::Types::position_at))]
pub fn position_of(files: usize, bytes: &[u8]) -> Result<(Position, &[u8]), Stop>
    ensures { Gives (λ x. (x.0, x.1.now)) result (position_at files bytes.now) }
{
    let (file, rest) = below_of(files, bytes)?;
    let (line, rest) = number_of(rest)?;
    let (column, rest) = number_of(rest)?;
    Ok((Position { file, line, column }, rest))
}
