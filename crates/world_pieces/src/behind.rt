// What stands behind the pieces of `java.lang.Object`.
ghost use Rattle.std.specs.Prelude.{◌≡◌, ◌↔◌, ◌++◌, Contains, IfOk, OnOk, List, All, map};
ghost use Rattle.std.specs.List.{flat_map};
ghost use Rattle.js_tree.specs.Rules.{IsPiece};
ghost use Rattle.js_tree.specs.Terms.{Name, Piece};
ghost use Rattle.js_tree.specs.Views.{piece_view};
ghost use Rattle.sj_baselink.specs.Steps.{OfOne};
ghost use Rattle.world_pieces.specs.Blocks.{pieces_in};
ghost use Rattle.world_pieces.specs.Helpers.{UsesWord};
ghost use Rattle.world_pieces.specs.Told.{HaveHelpers, AreBehind};

use crate::above::{above_kinds, helper_pieces};
use crate::blocks::Block;
use crate::helpers::helpers_of;
use crate::told::told_pieces;
use crate::words::{put_words, used_words};
use indexmap::IndexSet;
use js_tree::{Binding, JsPiece};
use sj_names::{Items, NoMemory, Text};
use sj_world::{LinkedWorld, World};
use std::alloc::Global;

/// The helpers that the pieces of the blocks use, and behind them the functions that tell primitive receivers apart: those of methods, and behind them those of
/// reflective names, each in the order of their names. Each piece keeps the rules of printing.
pub fn behind_object(
    alloc: Global,
    linked: &LinkedWorld,
    blocks: &[Block],
) -> Result<Vec<JsPiece>, NoMemory>
    ensures pieces { IfOk result (λ ps. AreBehind linked.now (flat_map pieces_in blocks.now) (map piece_view ps.items)) }
    ensures rules { IfOk result (λ ps. All IsPiece (map piece_view ps.items)) }
{
    let mut words = used_words(alloc, blocks)?;
    let told = told_pieces(alloc, linked, &words)?;
    put_words(&told, &mut words)?;
    with_helpers(alloc, linked.world(), &words, told)
}

// The pieces of the helpers that have these names, and behind them those.
fn with_helpers(
    alloc: Global,
    world: &World,
    words: &IndexSet<Text>,
    mut told: Vec<JsPiece>,
) -> Result<Vec<JsPiece>, NoMemory>
    ensures pieces { (ps : List Piece) → ((x : Name) → Contains words.now.keys x ↔ OfOne ps UsesWord x) → IfOk result (λ qs. HaveHelpers world.now ps (map piece_view told.items) (map piece_view qs.items)) }
    ensures rules { All IsPiece (map piece_view told.items) → IfOk result (λ qs. All IsPiece (map piece_view qs.items)) }
{
    let helpers = helpers_of(alloc, words)?;
    let above = above_kinds(alloc, world)?;
    let mut pieces = helper_pieces(alloc, &above, &helpers)?;
    pieces.append(&mut told)?;
    Ok(pieces)
}

/// Puts copies of the pieces behind others.
pub fn put_copies(
    alloc: Global,
    those: &[JsPiece],
    pieces: &mut Vec<JsPiece>,
) -> Result<(), NoMemory>
    ensures { OnOk result (map piece_view pieces.new.items ≡ map piece_view pieces.old.items ++ map piece_view those.now) }
{
    for piece in those {
        pieces.push(copied(alloc, piece)?)?;
    }
    Ok(())
}

// The same piece once more, which shares its item.
fn copied(alloc: Global, piece: &JsPiece) -> Result<JsPiece, NoMemory>
    ensures { IfOk result (λ p. piece_view p ≡ piece_view piece.now) }
{
    let uses = copied_uses(alloc, piece.uses.as_slice())?;
    Ok(JsPiece {
        owner: piece.owner.copied()?,
        name: piece.name.copied()?,
        uses: Items::from_vec(uses),
        item: piece.item.clone()?,
    })
}

fn copied_uses(alloc: Global, bindings: &[Binding]) -> Result<Vec<Binding>, NoMemory>
    ensures { IfOk result (λ copies. copies.items ≡ bindings.now) }
{
    let mut copies = Vec::new(alloc);
    for binding in bindings {
        copies.push(copied_use(binding)?)?;
    }
    Ok(copies)
}

fn copied_use(binding: &Binding) -> Result<Binding, NoMemory>
    ensures { IfOk result (λ b. b ≡ binding.now) }
{
    Ok(Binding {
        owner: binding.owner.copied()?,
        name: binding.name.copied()?,
    })
}
