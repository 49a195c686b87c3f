// The names of `java.lang.Object` that pieces use.
ghost use Rattle.std.specs.Prelude.{◌≡◌, ◌↔◌, Contains, IfOk, OnOk, map};
ghost use Rattle.std.specs.List.{flat_map};
ghost use Rattle.sj_emit_help_spec.specs.Words.{helper};
ghost use Rattle.js_tree.specs.Terms.{Name};
ghost use Rattle.js_tree.specs.Views.{piece_view};
ghost use Rattle.sj_baselink.specs.Steps.{Puts, OfOne};
ghost use Rattle.sj_names.specs.WellKnown as well_known;
ghost use Rattle.world_pieces.specs.Blocks.{pieces_in};
ghost use Rattle.world_pieces.specs.Helpers.{UsesWord};

use crate::blocks::Block;
use indexmap::IndexSet;
use js_tree::{Binding, JsPiece};
use sj_names::{ClassName, NoMemory, OBJECT, Text};
use std::alloc::Global;

/// The names of the bindings of `java.lang.Object` that the pieces of blocks use.
pub fn used_words(alloc: Global, blocks: &[Block]) -> Result<IndexSet<Text>, NoMemory>
    ensures { IfOk result (λ words. (x : Name) → Contains words.keys x ↔ OfOne (flat_map pieces_in blocks.now) UsesWord x) }
{
    let mut words = IndexSet::new(alloc);
    for block in blocks {
        put_words_of(block, &mut words)?;
    }
    Ok(words)
}

fn put_words_of(block: &Block, words: &mut IndexSet<Text>) -> Result<(), NoMemory>
    ensures { OnOk result (Puts (OfOne (pieces_in block.now) UsesWord) words.old.keys words.new.keys) }
{
    put_words(&block.own, words)?;
    put_words(&block.functions, words)
}

/// Puts the names that these pieces use.
pub fn put_words(pieces: &[JsPiece], words: &mut IndexSet<Text>) -> Result<(), NoMemory>
    ensures { OnOk result (Puts (OfOne (map piece_view pieces.now) UsesWord) words.old.keys words.new.keys) }
{
    for piece in pieces {
        put_uses(piece.uses.as_slice(), words)?;
    }
    Ok(())
}

fn put_uses(bindings: &[Binding], words: &mut IndexSet<Text>) -> Result<(), NoMemory>
    ensures { OnOk result (Puts (λ x. Contains bindings.now (helper x)) words.old.keys words.new.keys) }
{
    for binding in bindings {
        put_use(binding, words)?;
    }
    Ok(())
}

fn put_use(binding: &Binding, words: &mut IndexSet<Text>) -> Result<(), NoMemory>
    ensures { OnOk result (Puts (λ x. binding.now ≡ helper x) words.old.keys words.new.keys) }
{
    if is_object(&binding.owner) {
        words.insert(binding.name.copied()?)?;
    }
    Ok(())
}

/// Whether it is `java.lang.Object`.
pub fn is_object(class: &ClassName) -> bool
    ensures { result ≡ well_known.is_object class.now }
{
    class.text() == OBJECT
}
