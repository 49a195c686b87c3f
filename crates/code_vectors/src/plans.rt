// Graphs and plans.
ghost use Rattle.std.specs.Prelude.{◌≡◌};
ghost use Rattle.std.specs.Bool.{OnTrue};
ghost use Rattle.std.specs.List.{list_all};
ghost use Rattle.sj_names.specs.EntryPoints.{AreEntries, is_entry};

use crate::texts::add;
use js_tree::{Binding, JsExpr, JsItem, JsPiece};
use sj_graph::{Graph, Reference, graph};
use sj_names::{ClassName, Entries, EntryPoint, Items, NameError, SimpleName, Text};
use sj_split::{PlannedModule, Style, plan};
use std::alloc::Global;
use std::mem;
use std::rc::Rc;

/// What was read of a block: its pieces, its graph and its entries; and the program of these, once it is asked for.
pub struct Block {
    pieces: Vec<JsPiece>,
    owners: Vec<ClassName>,
    references: Vec<Reference>,
    entries: Vec<EntryPoint>,
    program: Option<Program>,
}

impl Drop for Block {
    fn drop(self) {
        let Block {
            pieces: _pieces,
            owners: _owners,
            references: _references,
            entries: _entries,
            program: _program,
        } = self;
    }
}

// A graph and the entries of a link.
#[derive(Drop)]
struct Program {
    graph: Graph,
    entries: Entries,
}

impl Block {
    pub(crate) fn new(alloc: Global) -> Block {
        Block {
            pieces: Vec::new(alloc),
            owners: Vec::new(alloc),
            references: Vec::new(alloc),
            entries: Vec::new(alloc),
            program: None,
        }
    }

    /// Adds what a line says, or the answer to what it asks.
    pub(crate) fn add_answer(
        &mut self,
        alloc: Global,
        kind: &str,
        fields: &str,
        text: &mut String,
    ) -> Result<(), NameError> {
        match kind {
            "graphed" => add_graph(alloc, &self.pieces, text),
            "style" => self.add_plan(alloc, fields, text),
            _ => self.add(alloc, kind, fields),
        }
    }

    fn add(&mut self, alloc: Global, kind: &str, fields: &str) -> Result<(), NameError> {
        let (first, rest) = fields.split_once('\t').unwrap_or((fields, ""));
        match kind {
            "piece" => add_piece(alloc, first, rest, &mut self.pieces),
            "owner" => add_owner(alloc, first, &mut self.owners),
            "edge" => add_edge(alloc, first, rest, &mut self.references),
            _ => add_entry(alloc, first, rest, &mut self.entries),
        }
    }

    // Adds the modules of the plan in a style, as `module NAME CLASSES INITIALIZERS`.
    fn add_plan(&mut self, alloc: Global, style: &str, text: &mut String) -> Result<(), NameError> {
        self.close(alloc);
        add(&["style\t", style, "\n"], text)?;
        match &self.program {
            Some(program) => add_modules(alloc, program, style_of(style), text),
            None => add(&["no entries\n"], text),
        }
    }

    // Puts the program together, if it isn't yet.
    fn close(&mut self, alloc: Global) {
        if self.program.is_none() {
            let owners = mem::replace(&mut self.owners, Vec::new(alloc));
            let references = mem::replace(&mut self.references, Vec::new(alloc));
            let entries = mem::replace(&mut self.entries, Vec::new(alloc));
            self.program = program_of(owners, references, entries);
        }
    }
}

fn program_of(
    owners: Vec<ClassName>,
    references: Vec<Reference>,
    entries: Vec<EntryPoint>,
) -> Option<Program> {
    if are_entries(&entries) {
        Some(Program {
            graph: Graph {
                owners: Items::from_vec(owners),
                references: Items::from_vec(references),
            },
            entries: Entries::new(entries),
        })
    } else {
        None
    }
}

// Whether these may be the entries of a link.
fn are_entries(list: &[EntryPoint]) -> bool
    ensures { OnTrue result (AreEntries list.now) }
{
    if list.is_empty() || list.len() > 1000 {
        return false;
    }
    are_valid(list)
}

fn are_valid(list: &[EntryPoint]) -> bool
    ensures { result ≡ list_all is_entry list.now }
{
    list.iter().all(|entry| entry.is_valid())
}

fn style_of(word: &str) -> Style {
    if word == "fewest" {
        Style::Fewest
    } else {
        Style::Smallest
    }
}

fn add_modules(
    alloc: Global,
    program: &Program,
    style: Style,
    text: &mut String,
) -> Result<(), NameError> {
    let plan = plan(alloc, &program.graph, &program.entries, style)?;
    for planned in plan.modules() {
        add_module(planned, text)?;
    }
    Ok(())
}

fn add_module(planned: &PlannedModule, text: &mut String) -> Result<(), NameError> {
    add(&["module\t", planned.name.as_str(), "\t"], text)?;
    add_classes(planned.classes.as_slice(), text)?;
    add(&["\t"], text)?;
    add_initializers(planned.initializers.as_slice(), text)?;
    add(&["\n"], text)
}

fn add_classes(classes: &[ClassName], text: &mut String) -> Result<(), NameError> {
    let mut separator = "";
    for class in classes {
        add(&[separator, class.text()], text)?;
        separator = ",";
    }
    Ok(())
}

fn add_initializers(entries: &[EntryPoint], text: &mut String) -> Result<(), NameError> {
    let mut separator = "";
    for entry in entries {
        add(&[separator, entry.module.as_str(), " "], text)?;
        add(&[entry.class.text(), " ", entry.method.text()], text)?;
        separator = ",";
    }
    Ok(())
}

// Adds the graph of the pieces, as `owner CLASS` and `edge CLASS CLASS` in the order of their bytes.
fn add_graph(alloc: Global, pieces: &[JsPiece], text: &mut String) -> Result<(), NameError> {
    let graph = graph(alloc, pieces)?;
    let mut lines = String::new(alloc);
    add_owners(graph.owners.as_slice(), &mut lines)?;
    add_references(graph.references.as_slice(), &mut lines)?;
    add_sorted(alloc, lines.as_str(), text)
}

fn add_owners(owners: &[ClassName], text: &mut String) -> Result<(), NameError> {
    for owner in owners {
        add(&["owner\t", owner.text(), "\n"], text)?;
    }
    Ok(())
}

fn add_references(references: &[Reference], text: &mut String) -> Result<(), NameError> {
    for each in references {
        add(
            &["edge\t", each.from.text(), "\t", each.to.text(), "\n"],
            text,
        )?;
    }
    Ok(())
}

// Adds the lines in the order of their bytes.
fn add_sorted(alloc: Global, lines: &str, text: &mut String) -> Result<(), NameError> {
    let mut sorted = Vec::new(alloc);
    for line in lines.lines() {
        sorted.push(line)?;
    }
    sorted.sort()?;
    for line in sorted.iter() {
        add(&[*line, "\n"], text)?;
    }
    Ok(())
}

fn add_piece(
    alloc: Global,
    owner: &str,
    uses: &str,
    pieces: &mut Vec<JsPiece>,
) -> Result<(), NameError> {
    let piece = piece(alloc, owner, uses)?;
    pieces.push(piece)?;
    Ok(())
}

fn add_owner(alloc: Global, owner: &str, owners: &mut Vec<ClassName>) -> Result<(), NameError> {
    let owner = ClassName::parse(alloc, owner)?;
    owners.push(owner)?;
    Ok(())
}

fn add_edge(
    alloc: Global,
    from: &str,
    to: &str,
    references: &mut Vec<Reference>,
) -> Result<(), NameError> {
    let from = ClassName::parse(alloc, from)?;
    let to = ClassName::parse(alloc, to)?;
    references.push(Reference { from, to })?;
    Ok(())
}

fn add_entry(
    alloc: Global,
    id: &str,
    rest: &str,
    entries: &mut Vec<EntryPoint>,
) -> Result<(), NameError> {
    let entry = entry(alloc, id, rest)?;
    entries.push(entry)?;
    Ok(())
}

fn entry(alloc: Global, id: &str, rest: &str) -> Result<EntryPoint, NameError> {
    let (class, method) = rest.split_once('\t').unwrap_or((rest, ""));
    Ok(EntryPoint {
        module: Text::from_str(alloc, id)?,
        class: ClassName::parse(alloc, class)?,
        method: SimpleName::parse(alloc, method)?,
    })
}

// A piece of a class that uses these bindings. The graph doesn't look at its item.
fn piece(alloc: Global, owner: &str, uses: &str) -> Result<JsPiece, NameError> {
    let uses = bindings(alloc, uses)?;
    let Binding { owner, name } = binding(alloc, owner, "x")?;
    Ok(JsPiece {
        owner,
        name,
        uses: Items::from_vec(uses),
        item: Rc::new(alloc, JsItem::Expression(JsExpr::Null))?,
    })
}

// The bindings `OWNER NAME`, with commas between.
fn bindings(alloc: Global, text: &str) -> Result<Vec<Binding>, NameError> {
    let mut bindings = Vec::new(alloc);
    for one in text.split(',') {
        if let Some((owner, name)) = one.split_once(' ') {
            bindings.push(binding(alloc, owner, name)?)?;
        }
    }
    Ok(bindings)
}

fn binding(alloc: Global, owner: &str, name: &str) -> Result<Binding, NameError> {
    Ok(Binding {
        owner: ClassName::parse(alloc, owner)?,
        name: Text::from_str(alloc, name)?,
    })
}
