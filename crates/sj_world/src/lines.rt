// What a world keeps of each class.
ghost use Rattle.std.specs.Prelude.{◌≡◌, ◌++◌, ◌∷◌, [], true, IfOk, OnOk, IsTrue};
ghost use Rattle.sj_names.specs.Grammar.{is_class_name};
ghost use Rattle.sj_world.specs.Known as known;
ghost use Rattle.sj_world.specs.Known.{is_known, hijacked, names_of};
ghost use Rattle.sj_world.specs.Tables.{IsLine, IsAdded, AreLines, AreTables};
ghost use Rattle.sj_world.specs.Refusals.{IsInOrder};

use crate::above::ancestors_of;
use crate::chains::chain_of;
use sj_names::{ClassName, Items, NoMemory, OBJECT, Text};
use sj_trees::ClassDef;
use std::alloc::Global;
use std::collections::BTreeMap;

/// What stands above a class: its ancestors in the order of their bytes, and the chain of its superclasses from itself upward.
#[derive(Drop)]
pub struct Line {
    pub ancestors: Items<ClassName>,
    pub chain: Items<ClassName>,
}

/// What stands above each known class, and the names of the eight that every world knows.
#[derive(Drop)]
pub struct Tables {
    pub lines: BTreeMap<ClassName, Line>,
    pub hijacked: Items<ClassName>,
}

/// The tables of these classes.
pub fn tables_of(alloc: Global, classes: &[ClassDef]) -> Result<Tables, NoMemory>
    requires { IsInOrder classes.now }
    ensures { IfOk result (AreTables classes.now) }
{
    let hijacked = hijacked_names(alloc)?;
    let lines = lines_of(alloc, classes)?;
    Ok(Tables { lines, hijacked })
}

fn hijacked_names(alloc: Global) -> Result<Items<ClassName>, NoMemory>
    ensures { IfOk result (λ names. names ≡ hijacked) }
{
    let mut names = Vec::new(alloc);
    add_hijacked(alloc, &mut names)?;
    Ok(Items::from_vec(names))
}

fn lines_of(alloc: Global, classes: &[ClassDef]) -> Result<BTreeMap<ClassName, Line>, NoMemory>
    requires { IsInOrder classes.now }
    ensures { IfOk result (AreLines classes.now) }
{
    let object = class_name(alloc, OBJECT)?;
    let names = known_names(alloc, classes)?;
    all_lines(alloc, classes, &object, &names)
}

fn all_lines(
    alloc: Global,
    classes: &[ClassDef],
    object: &ClassName,
    names: &[ClassName],
) -> Result<BTreeMap<ClassName, Line>, NoMemory>
    requires in_order { IsInOrder classes.now }
    requires object { object.now ≡ known.object }
    requires known { names.now ≡ names_of classes.now ++ hijacked }
    ensures { IfOk result (AreLines classes.now) }
{
    let mut lines = BTreeMap::new(alloc);
    for name in names {
        add_line(alloc, classes, object, name, &mut lines)?;
    }
    Ok(lines)
}

// Adds what stands above a class.
fn add_line(
    alloc: Global,
    classes: &[ClassDef],
    object: &ClassName,
    name: &ClassName,
    lines: &mut BTreeMap<ClassName, Line>,
) -> Result<(), NoMemory>
    requires in_order { IsInOrder classes.now }
    requires object { object.now ≡ known.object }
    requires known { is_known classes.now name.now ≡ true }
    ensures { OnOk result (IsAdded classes.now name.now lines.old lines.new) }
{
    let line = line_of(alloc, classes, object, name)?;
    lines.insert(name.copied()?, line)?;
    Ok(())
}

fn line_of(
    alloc: Global,
    classes: &[ClassDef],
    object: &ClassName,
    name: &ClassName,
) -> Result<Line, NoMemory>
    requires in_order { IsInOrder classes.now }
    requires object { object.now ≡ known.object }
    requires known { is_known classes.now name.now ≡ true }
    ensures { IfOk result (IsLine classes.now name.now) }
{
    let ancestors = ancestors_of(alloc, classes, object, name)?;
    let chain = chain_of(alloc, classes, object, name)?;
    Ok(Line {
        ancestors: Items::from_vec(ancestors),
        chain: Items::from_vec(chain),
    })
}

// The names of the classes, and of the eight that every world knows.
fn known_names(alloc: Global, classes: &[ClassDef]) -> Result<Vec<ClassName>, NoMemory>
    ensures { IfOk result (λ names. names.items ≡ names_of classes.now ++ hijacked) }
{
    let mut names = Vec::new(alloc);
    for class in classes {
        names.push(class.name.copied()?)?;
    }
    add_hijacked(alloc, &mut names)?;
    Ok(names)
}

fn add_hijacked(alloc: Global, names: &mut Vec<ClassName>) -> Result<(), NoMemory>
    ensures { OnOk result (names.new.items ≡ names.old.items ++ hijacked) }
{
    add_name(alloc, "java.lang.Void", names)?;
    add_name(alloc, "java.lang.Boolean", names)?;
    add_name(alloc, "java.lang.Character", names)?;
    add_name(alloc, "java.lang.Byte", names)?;
    add_name(alloc, "java.lang.Short", names)?;
    add_name(alloc, "java.lang.Integer", names)?;
    add_name(alloc, "java.lang.Long", names)?;
    add_name(alloc, "java.lang.String", names)?;
    Ok(())
}

fn add_name(alloc: Global, text: &str, names: &mut Vec<ClassName>) -> Result<(), NoMemory>
    requires { IsTrue (is_class_name text.now) }
    ensures { OnOk result (names.new.items ≡ names.old.items ++ text.now ∷ []) }
{
    names.push(class_name(alloc, text)?)?;
    Ok(())
}

// The class name that `text` is.
fn class_name(alloc: Global, text: &str) -> Result<ClassName, NoMemory>
    requires { IsTrue (is_class_name text.now) }
    ensures { IfOk result (λ name. name ≡ text.now) }
{
    let text = Text::from_str(alloc, text)?;
    Ok(ClassName::of_text(text))
}
