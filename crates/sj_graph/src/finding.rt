// The graph of pieces.
ghost use Rattle.std.specs.Prelude.{◌≡◌, [], IfOk, OnOk, map};
ghost use Rattle.std.specs.List.{flat_map, IsDistinct};
ghost use Rattle.indexmap.specs.IndexSet.{insert_all, insert_key, IsUnique};
ghost use Rattle.js_tree.specs.Views.{piece_view};
ghost use Rattle.sj_graph.specs.References as defined;
ghost use Rattle.sj_graph.specs.References.{owner_of, reference, reference_by, piece_references, is_same_name, is_same_reference, IsGraph};

use crate::{Graph, Reference};
use indexmap::IndexSet;
use js_tree::{Binding, JsPiece};
use sj_names::{ClassName, Items, NoMemory, OBJECT, Text};
use std::alloc::Global;

/// The graph of the classes that own `pieces`: a class refers to the owner of each binding that a piece of it uses, and to
/// `java.lang.Object`. Each owner and each reference comes once.
pub fn graph(alloc: Global, pieces: &[JsPiece]) -> Result<Graph, NoMemory>
    ensures { IfOk result (λ graph. IsGraph (map piece_view pieces.now) graph) }
{
    let owners = owners(alloc, pieces)?;
    let references = references(alloc, pieces)?;
    Ok(Graph {
        owners: Items::from_vec(owners),
        references: Items::from_vec(references),
    })
}

// The owners of pieces, each once.
fn owners(alloc: Global, pieces: &[JsPiece]) -> Result<Vec<ClassName>, NoMemory>
    ensures exact { IfOk result (λ list. list.items ≡ insert_all is_same_name [] (map owner_of (map piece_view pieces.now))) }
    ensures once { IfOk result (λ list. IsDistinct is_same_name list.items) }
{
    let mut found = IndexSet::new(alloc);
    for piece in pieces {
        found.insert(piece.owner.copied()?)?;
    }
    listed_names(alloc, &found)
}

// The references of pieces, each once.
#[tactic(auto, using(std::proofs::lemmas::Grind::common_steps, worklist::proofs::Inserted::insert_all_steps))]
fn references(alloc: Global, pieces: &[JsPiece]) -> Result<Vec<Reference>, NoMemory>
    ensures exact { IfOk result (λ list. list.items ≡ insert_all is_same_reference [] (flat_map piece_references (map piece_view pieces.now))) }
    ensures once { IfOk result (λ list. IsDistinct is_same_reference list.items) }
{
    let object = ClassName::of_text(Text::from_str(alloc, OBJECT)?);
    let mut found = IndexSet::new(alloc);
    for piece in pieces {
        add_piece(piece, &object, &mut found)?;
    }
    listed_references(alloc, &found)
}

// Adds the references of a piece.
#[tactic(auto, using(std::proofs::lemmas::Grind::common_steps, worklist::proofs::Inserted::insert_all_steps))]
fn add_piece(
    piece: &JsPiece,
    object: &ClassName,
    found: &mut IndexSet<Reference>,
) -> Result<(), NoMemory>
    requires { object.now ≡ defined.object }
    ensures keys { OnOk result (found.new.keys ≡ insert_all is_same_reference found.old.keys (piece_references (piece_view piece.now))) }
    ensures once { OnOk result (IsUnique is_same_reference found.new) }
{
    add_uses(&piece.owner, piece.uses.as_slice(), found)?;
    add_reference(&piece.owner, object, found)
}

// Adds a reference of a class to each class that owns one of `uses`.
fn add_uses(
    owner: &ClassName,
    uses: &[Binding],
    found: &mut IndexSet<Reference>,
) -> Result<(), NoMemory>
    ensures { OnOk result (found.new.keys ≡ insert_all is_same_reference found.old.keys (map (reference_by owner.now) uses.now)) }
{
    for binding in uses {
        add_reference(owner, &binding.owner, found)?;
    }
    Ok(())
}

fn add_reference(
    from: &ClassName,
    to: &ClassName,
    found: &mut IndexSet<Reference>,
) -> Result<(), NoMemory>
    ensures keys { OnOk result (found.new.keys ≡ insert_key is_same_reference found.old.keys (reference from.now to.now)) }
    ensures once { OnOk result (IsUnique is_same_reference found.new) }
{
    let from = from.copied()?;
    let to = to.copied()?;
    found.insert(Reference { from, to })?;
    Ok(())
}

// The names that were found, as a list.
fn listed_names(alloc: Global, found: &IndexSet<ClassName>) -> Result<Vec<ClassName>, NoMemory>
    ensures { IfOk result (λ list. list.items ≡ found.now.keys) }
{
    let mut list = Vec::new(alloc);
    for place in 0..found.len() {
        list.push(found[place].copied()?)?;
    }
    Ok(list)
}

// The references that were found, as a list.
fn listed_references(alloc: Global, found: &IndexSet<Reference>) -> Result<Vec<Reference>, NoMemory>
    ensures { IfOk result (λ list. list.items ≡ found.now.keys) }
{
    let mut list = Vec::new(alloc);
    for place in 0..found.len() {
        list.push(found[place].copied()?)?;
    }
    Ok(list)
}
