// A folder that is linked.
ghost use Rattle.std.specs.Prelude.{◌≡◌, IfOk, map};
ghost use Rattle.js_tree.specs.Views.{piece_view};
ghost use Rattle.folder_judging.specs.Counts.{bodies_among, members_of};
ghost use Rattle.folder_linking.specs.Counts.{Emits};
ghost use Rattle.folder_linking.specs.Functions.{AreFunctions, piece};
ghost use Rattle.folder_linking.specs.Linking.{ArePrintable, IsLinkByEntries, IsLinkable};
ghost use Rattle.folder_linking.specs.Modules.{as_file};
ghost use Rattle.sj_names.specs.EntryPoints.{AreEntries};

use crate::ModuleFile;
use crate::functions::{Function, functions_of_bodies};
use crate::modules::printed_files;
use js_tree::JsPiece;
use sj_emit_module_spec::{modules_keep_rules, plans_name_files};
use sj_graph::graph;
use sj_names::{Entries, NoMemory};
use sj_split::{Style, plan};
use sj_workers::Workers;
use sj_world::LinkedWorld;
use std::alloc::Global;
use world_pieces::world_pieces;

/// The files of a folder that is accepted: those of the modules that are planned in the style
/// for the pieces of its classes, in the order of their names. Each needed body is emitted once, by `work`. Want of memory is the only error.
pub fn link<W: Workers>(
    alloc: Global,
    linked: &LinkedWorld,
    entries: &Entries,
    style: Style,
    work: &mut W,
) -> Result<Vec<ModuleFile>, NoMemory>
    requires { IsLinkable entries.now linked.now }
    ensures link { IfOk result (λ files. IsLinkByEntries linked.now.world entries.now style (map as_file files.items)) }
    ensures counted { Emits (bodies_among linked.now.facts) result (W.meter work.old) (W.meter work.new) }
{
    let pieces = pieces_in_order(alloc, linked, entries, work)?;
    link_pieces(alloc, &pieces, linked, entries, style)
}

fn link_pieces(
    alloc: Global,
    pieces: &[JsPiece],
    linked: &LinkedWorld,
    entries: &Entries,
    style: Style,
) -> Result<Vec<ModuleFile>, NoMemory>
    requires { ArePrintable linked.now.world entries.now (map piece_view pieces.now) }
    ensures { IfOk result (λ files. IsLinkByEntries linked.now.world entries.now style (map as_file files.items)) }
{
    modules_keep_rules();
    plans_name_files();
    let graph = graph(alloc, pieces)?;
    are_entries(entries);
    let plan = plan(alloc, &graph, entries, style)?;
    printed_files(alloc, &plan, pieces)
}

// Entries are those of a command.
fn are_entries(entries: &Entries)
    ensures { AreEntries entries.now }
{
    let _list = entries.as_slice();
}

// The pieces of the classes, in the order of a module.
fn pieces_in_order<W: Workers>(
    alloc: Global,
    linked: &LinkedWorld,
    entries: &Entries,
    work: &mut W,
) -> Result<Vec<JsPiece>, NoMemory>
    requires { IsLinkable entries.now linked.now }
    ensures pieces { IfOk result (λ ps. ArePrintable linked.now.world entries.now (map piece_view ps.items)) }
    ensures counted { Emits (bodies_among linked.now.facts) result (W.meter work.old) (W.meter work.new) }
{
    let functions = functions_of_bodies(alloc, linked, work)?;
    pieces_with(alloc, linked, entries, functions)
}

fn pieces_with(
    alloc: Global,
    linked: &LinkedWorld,
    entries: &Entries,
    functions: Vec<Function<'_>>,
) -> Result<Vec<JsPiece>, NoMemory>
    requires linkable { IsLinkable entries.now linked.now }
    requires functions { AreFunctions linked.now.world (members_of linked.now.facts) functions.items }
    ensures { IfOk result (λ ps. ArePrintable linked.now.world entries.now (map piece_view ps.items)) }
{
    let pieces = pieces_of(alloc, functions)?;
    world_pieces(alloc, linked, pieces)
}

fn pieces_of(alloc: Global, functions: Vec<Function<'_>>) -> Result<Vec<JsPiece>, NoMemory>
    ensures { IfOk result (λ ps. ps.items ≡ map piece functions.entry.items) }
{
    let mut pieces = Vec::new(alloc);
    for function in functions {
        let Function { piece, .. } = function;
        pieces.push(piece)?;
    }
    Ok(pieces)
}
