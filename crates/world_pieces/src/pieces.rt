// The pieces of a linked world in the order of a module.
ghost use Rattle.std.specs.Prelude.{◌≡◌, ◌++◌, List, map, All, IfOk, OnOk};
ghost use Rattle.std.specs.List.{flat_map};
ghost use Rattle.js_tree.specs.Rules.{IsPiece};
ghost use Rattle.js_tree.specs.Views.{piece_view};
ghost use Rattle.linked_pieces.specs.Pieces.{AreLinkedPieces, piece_of_member};
ghost use Rattle.agree_early_errors.specs.EmittedMethods.{EmittedMethod, HaveOwnMembers};
ghost use Rattle.world_pieces.specs.Blocks.{pieces_in, with_helpers_in};
ghost use Rattle.world_pieces.specs.Names.{NamesTell};

use crate::behind::{behind_object, put_copies};
use crate::blocks::{Block, blocks_of};
use crate::classes::classes_in_order;
use crate::words::is_object;
use js_tree::JsPiece;
use sj_names::NoMemory;
use sj_world::LinkedWorld;
use std::alloc::Global;

/// The pieces of a linked world with these functions, which may stand in any order. Classes with fewer ancestors stand first, and of those
/// with as many the lesser names. A class has its own pieces and behind them its functions in the order of their names; `java.lang.Object`
/// has behind these exactly the helpers that are used, the functions of methods that tell primitive receivers apart, and the functions of reflective names, each
/// in the order of their names. Functions of classes that the world hasn't are left out.
/// Each piece keeps the rules of printing. Want of memory is the only error.
pub fn world_pieces(
    alloc: Global,
    linked: &LinkedWorld,
    functions: Vec<JsPiece>,
) -> Result<Vec<JsPiece>, NoMemory>
    requires { All IsPiece (map piece_view functions.items) }
    ensures pieces { (all : List EmittedMethod) → map piece_view functions.items ≡ map (piece_of_member linked.now.world) all → HaveOwnMembers all → NamesTell all → IfOk result (λ ps. AreLinkedPieces linked.now all (map piece_view ps.items)) }
    ensures rules { IfOk result (λ ps. All IsPiece (map piece_view ps.items)) }
{
    let classes = classes_in_order(alloc, linked.world())?;
    let blocks = blocks_of(alloc, linked, &classes, functions)?;
    let behind = behind_object(alloc, linked, &blocks)?;
    laid_out(alloc, blocks, &behind)
}

// The pieces of the blocks, with those that stand behind the pieces of `java.lang.Object`.
fn laid_out(alloc: Global, blocks: Vec<Block>, behind: &[JsPiece]) -> Result<Vec<JsPiece>, NoMemory>
    requires blocks { All IsPiece (flat_map pieces_in blocks.items) }
    requires behind { All IsPiece (map piece_view behind.now) }
    ensures pieces { IfOk result (λ ps. map piece_view ps.items ≡ flat_map (with_helpers_in (map piece_view behind.now)) blocks.items) }
    ensures rules { IfOk result (λ ps. All IsPiece (map piece_view ps.items)) }
{
    let mut pieces = Vec::new(alloc);
    for block in blocks {
        put_block(alloc, block, behind, &mut pieces)?;
    }
    Ok(pieces)
}

fn put_block(
    alloc: Global,
    block: Block,
    behind: &[JsPiece],
    pieces: &mut Vec<JsPiece>,
) -> Result<(), NoMemory>
    ensures pieces { OnOk result (map piece_view pieces.new.items ≡ map piece_view pieces.old.items ++ with_helpers_in (map piece_view behind.now) block) }
    ensures rules { OnOk result (All IsPiece (map piece_view behind.now) → All IsPiece (pieces_in block) → All IsPiece (map piece_view pieces.old.items) → All IsPiece (map piece_view pieces.new.items)) }
{
    let is_object = is_object(&block.class);
    put_pieces(block, pieces)?;
    if is_object {
        put_copies(alloc, behind, pieces)?;
    }
    Ok(())
}

fn put_pieces(block: Block, pieces: &mut Vec<JsPiece>) -> Result<(), NoMemory>
    ensures { OnOk result (map piece_view pieces.new.items ≡ map piece_view pieces.old.items ++ pieces_in block) }
{
    let mut own = block.own;
    let mut functions = block.functions;
    pieces.append(&mut own)?;
    pieces.append(&mut functions)?;
    Ok(())
}
