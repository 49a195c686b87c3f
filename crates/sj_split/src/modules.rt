// The modules of a plan.
ghost use Rattle.std.specs.Prelude.{◌≡◌, ◌++◌, [], IfOk, OnOk, List, map, length, codes, All};
ghost use Rattle.indexmap.specs.IndexSet.{insert_all};
ghost use Rattle.sj_split.specs.declared.homes.Settled.{Settled};
ghost use Rattle.sj_split.specs.Orders.{is_same};
ghost use Rattle.sj_split.specs.Groups.{AreByKey};
ghost use Rattle.std.specs.List.Sorted.{IsPermutation, IsSortedByKey};
ghost use Rattle.std.specs.Ordering.{nat_cmp};
ghost use Rattle.std.specs.Cmp.Lexicographic.{slice_cmp};
ghost use Rattle.module_names.specs.Names.{sha1_digest};
ghost use Rattle.sj_split.specs.Modules as planned;
ghost use Rattle.sj_split.specs.Modules.{AreIds, AreKeys, IsPlan};
ghost use Rattle.sj_split.specs.Steps.{keys_in};
ghost use Rattle.sj_split.specs.Files.{planned_of, IsFiled};

use crate::homes::{Home, Settled};
use crate::orders::each_once_in_order;
use crate::settling::homes;
use crate::{Plan, PlannedModule, Style};
use class_groups::ClassGroups;
use indexmap::IndexSet;
use module_names::internal_names;
use sj_graph::Graph;
use sj_names::{ClassName, Entries, EntryPoint, Items, NoMemory, Text};
use std::alloc::Global;

const ENDING: &str = ".js";

/// The plan of a link: a public module for each id of an entry, with its initializers, and the internal modules that own a piece, in
/// the order of the names of their files. With fewest modules a class belongs to the module of the public modules that lead to it; with
/// smallest ones, each set of classes that lead to each other is a module. A class to which no public module leads is in none.
pub fn plan(alloc: Global, graph: &Graph, entries: &Entries, style: Style) -> Result<Plan, NoMemory>
    ensures { IfOk result (λ plan. IsPlan sha1_digest graph.now entries.now style plan) }
{
    let entries = entries.as_slice();
    let ids = ids(alloc, entries)?;
    let homes = homes(alloc, graph.references.as_slice(), entries, &ids, style)?;
    let keys = keys(alloc, &homes)?;
    let names = internal_names(alloc, &keys)?;
    let mut modules = public_modules(alloc, entries, &homes, &ids)?;
    add_internal_modules(
        alloc,
        graph.owners.as_slice(),
        &homes,
        &keys,
        &names,
        &mut modules,
    )?;
    let modules = in_order_of_files(alloc, modules)?;
    Ok(Plan::of_modules(modules))
}

// The ids of the public modules, in the order of their bytes.
fn ids(alloc: Global, entries: &[EntryPoint]) -> Result<Vec<Text>, NoMemory>
    ensures { IfOk result (λ ids. AreIds entries.now ids.items) }
{
    Ok(each_once_in_order(entry_ids(alloc, entries)?))
}

fn entry_ids(alloc: Global, entries: &[EntryPoint]) -> Result<Vec<Text>, NoMemory>
    ensures { IfOk result (λ ids. ids.items ≡ map planned.module_of entries.now) }
{
    let mut ids = Vec::new(alloc);
    for entry in entries {
        ids.push(entry.module.copied()?)?;
    }
    Ok(ids)
}

// The keys of the internal modules, in the order of their bytes.
fn keys(alloc: Global, homes: &[Settled]) -> Result<Vec<Text>, NoMemory>
    ensures { IfOk result (λ keys. AreKeys homes.now keys.items) }
{
    Ok(each_once_in_order(home_keys(alloc, homes)?))
}

fn home_keys(alloc: Global, homes: &[Settled]) -> Result<Vec<Text>, NoMemory>
    ensures { IfOk result (λ keys. keys.items ≡ keys_in homes.now) }
{
    let mut keys = Vec::new(alloc);
    for settled in homes {
        if let Home::Internal(key) = &settled.home {
            keys.push(key.copied()?)?;
        }
    }
    Ok(keys)
}

// The public modules, in the order of their ids.
fn public_modules(
    alloc: Global,
    entries: &[EntryPoint],
    homes: &[Settled],
    ids: &[Text],
) -> Result<Vec<PlannedModule>, NoMemory>
    ensures { IfOk result (λ modules. modules.items ≡ map (planned.public_module entries.now homes.now) ids.now) }
{
    let mut modules = Vec::new(alloc);
    for id in ids {
        modules.push(public_module(alloc, entries, homes, id)?)?;
    }
    Ok(modules)
}

fn public_module(
    alloc: Global,
    entries: &[EntryPoint],
    homes: &[Settled],
    id: &Text,
) -> Result<PlannedModule, NoMemory>
    ensures { IfOk result (λ one. one ≡ planned.public_module entries.now homes.now id.now) }
{
    let classes = public_classes(alloc, homes, id)?;
    let initializers = initializers(alloc, entries, id)?;
    let name = id.copied()?;
    Ok(PlannedModule {
        name,
        classes: Items::from_vec(classes),
        initializers: Items::from_vec(initializers),
    })
}

// The classes that belong to the public module with this id.
fn public_classes(alloc: Global, homes: &[Settled], id: &Text) -> Result<Vec<ClassName>, NoMemory>
    ensures { IfOk result (λ classes. classes.items ≡ planned.classes_at (planned.is_public id.now) homes.now) }
{
    let mut classes = Vec::new(alloc);
    for settled in homes {
        if is_public(&settled.home, id) {
            classes.push(settled.class.copied()?)?;
        }
    }
    Ok(classes)
}

fn is_public(home: &Home, id: &Text) -> bool
    ensures { result ≡ planned.is_public id.now home.now }
{
    match home {
        Home::Public(other) => other.is_same(id),
        Home::Internal(_) => false,
    }
}

// The initializers of the public module with this id.
fn initializers(
    alloc: Global,
    entries: &[EntryPoint],
    id: &Text,
) -> Result<Vec<EntryPoint>, NoMemory>
    ensures { IfOk result (λ list. list.items ≡ planned.initializers_of id.now entries.now) }
{
    let mut initializers = Vec::new(alloc);
    for entry in entries {
        if entry.module.is_same(id) {
            initializers.push(entry.copied()?)?;
        }
    }
    Ok(initializers)
}

// The owners of pieces.
fn owner_set(alloc: Global, owners: &[ClassName]) -> Result<IndexSet<ClassName>, NoMemory>
    ensures { IfOk result (λ set. set.keys ≡ insert_all is_same [] owners.now) }
{
    let mut set = IndexSet::new(alloc);
    for owner in owners {
        set.insert(owner.copied()?)?;
    }
    Ok(set)
}

// The classes of each internal module, by its key.
fn by_key(alloc: Global, homes: &[Settled]) -> Result<ClassGroups, NoMemory>
    ensures { IfOk result (AreByKey homes.now) }
{
    let mut groups = ClassGroups::new(alloc);
    for settled in homes {
        if let Home::Internal(key) = &settled.home {
            groups.add(alloc, key, &settled.class)?;
        }
    }
    Ok(groups)
}

// Adds the internal modules with these keys and names that own a piece.
fn add_internal_modules(
    alloc: Global,
    owners: &[ClassName],
    homes: &[Settled],
    keys: &[Text],
    names: &[Text],
    modules: &mut Vec<PlannedModule>,
) -> Result<(), NoMemory>
    requires { length names.now ≡ length keys.now }
    ensures { OnOk result (modules.new.items ≡ modules.old.items ++ planned.internal_modules owners.now homes.now keys.now names.now) }
{
    let owners = owner_set(alloc, owners)?;
    let groups = by_key(alloc, homes)?;
    add_grouped_modules(alloc, &owners, &groups, keys, names, modules)?;
    Ok(())
}

// Adds the internal modules with these keys and names that own a piece, of groups.
fn add_grouped_modules(
    alloc: Global,
    owners: &IndexSet<ClassName>,
    groups: &ClassGroups,
    keys: &[Text],
    names: &[Text],
    modules: &mut Vec<PlannedModule>,
) -> Result<(), NoMemory>
    requires { length names.now ≡ length keys.now }
    ensures { OnOk result ((homes : List Settled) → AreByKey homes groups.now → modules.new.items ≡ modules.old.items ++ planned.internal_modules owners.now.keys homes keys.now names.now) }
{
    for (place, key) in keys.iter().enumerate() {
        let classes = groups.classes(alloc, key)?;
        add_internal_module(alloc, owners, classes, &names[place], modules)?;
    }
    Ok(())
}

// Adds the internal module of this name, if one of the classes owns a piece.
fn add_internal_module(
    alloc: Global,
    owners: &IndexSet<ClassName>,
    classes: Vec<ClassName>,
    name: &Text,
    modules: &mut Vec<PlannedModule>,
) -> Result<(), NoMemory>
    ensures { OnOk result (modules.new.items ≡ modules.old.items ++ planned.with_piece owners.now.keys classes.items name.now) }
{
    if has_piece(owners, &classes) {
        modules.push(internal_module(alloc, name, classes)?)?;
    }
    Ok(())
}

fn internal_module(
    alloc: Global,
    name: &Text,
    classes: Vec<ClassName>,
) -> Result<PlannedModule, NoMemory>
    ensures { IfOk result (λ one. one ≡ planned.module_without_initializers name.now classes.items) }
{
    let name = name.copied()?;
    let initializers = Vec::new(alloc);
    Ok(PlannedModule {
        name,
        classes: Items::from_vec(classes),
        initializers: Items::from_vec(initializers),
    })
}

// Whether one of the classes owns a piece.
fn has_piece(owners: &IndexSet<ClassName>, classes: &[ClassName]) -> bool
    ensures { result ≡ planned.has_piece owners.now.keys classes.now }
{
    classes.iter().any(|class| is_among(owners, class))
}

fn is_among(owners: &IndexSet<ClassName>, class: &ClassName) -> bool
    ensures { result ≡ planned.is_among owners.now.keys class.now }
{
    owners.contains(class)
}

// A module and the name of its file.
#[derive(Drop)]
pub struct Filed {
    pub file: Text,
    pub planned: PlannedModule,
}

// The modules in the order of the names of their files.
fn in_order_of_files(
    alloc: Global,
    modules: Vec<PlannedModule>,
) -> Result<Vec<PlannedModule>, NoMemory>
    ensures exact { IfOk result (λ list. IsPermutation modules.items list.items) }
    ensures in_order { IfOk result (λ list. IsSortedByKey planned.file (slice_cmp nat_cmp) list.items) }
{
    let mut filed = with_files(alloc, modules)?;
    filed.sort_unstable_by(|a, b| a.file.cmp(&b.file));
    let list = without_files(alloc, filed)?;
    Ok(list)
}

fn without_files(alloc: Global, filed: Vec<Filed>) -> Result<Vec<PlannedModule>, NoMemory>
    ensures { IfOk result (λ list. list.items ≡ map planned_of filed.items) }
{
    Ok(filed.into_iter().map(|filed| filed.planned).collect(alloc)?)
}

// The modules, each with the name of its file.
fn with_files(alloc: Global, modules: Vec<PlannedModule>) -> Result<Vec<Filed>, NoMemory>
    ensures modules { IfOk result (λ list. map planned_of list.items ≡ modules.items) }
    ensures files { IfOk result (λ list. All IsFiled list.items) }
{
    let mut list = Vec::new(alloc);
    for planned in modules {
        let file = file_name(alloc, &planned.name)?;
        list.push(Filed { file, planned })?;
    }
    Ok(list)
}

fn file_name(alloc: Global, name: &Text) -> Result<Text, NoMemory>
    ensures { IfOk result (λ file. file ≡ name.now ++ codes ".js") }
{
    let mut file = String::from_str(alloc, name.as_str())?;
    file.push_str(ENDING)?;
    Ok(Text::from_string(file)?)
}
