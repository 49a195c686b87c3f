// The pieces of worlds.
ghost use Rattle.std.specs.Prelude.{All, map};
ghost use Rattle.js_tree.specs.Rules.{IsPiece};
ghost use Rattle.js_tree.specs.Views.{piece_view};

use crate::functions::functions_of;
use crate::texts::line_of;
use anyhow::Result;
use entries_file::entries_of;
use js_tree::JsPiece;
use sj_baselink::base_link;
use sj_reach::reach;
use sj_trees::ClassDef;
use sj_world::{LinkedWorld, World};
use std::alloc::Global;
use world_pieces::world_pieces;

/// The lines of the pieces of the world that is linked for these entries, in the order of a module; `None` where a field of
/// a needed body isn't by its form one of an object.
pub(crate) fn made_lines(
    alloc: Global,
    classes: Vec<ClassDef>,
    entries: &[u8],
) -> Result<Option<Vec<String>>> {
    let linked = linked_world(alloc, classes, entries)?;
    match functions_of(alloc, &linked)? {
        Some(functions) => {
            let pieces = world_pieces(alloc, &linked, functions)?;
            Ok(Some(lines_of(alloc, &pieces)?))
        }
        None => Ok(None),
    }
}

fn linked_world(alloc: Global, classes: Vec<ClassDef>, entries: &[u8]) -> Result<LinkedWorld> {
    let entries = entries_of(alloc, entries)?;
    let world = World::new(alloc, classes)?;
    let reached = reach(alloc, &world, &entries)?;
    Ok(base_link(alloc, &world, &reached)?)
}

fn lines_of(alloc: Global, pieces: &[JsPiece]) -> Result<Vec<String>>
    requires { All IsPiece (map piece_view pieces.now) }
{
    let mut lines = Vec::new(alloc);
    for piece in pieces {
        lines.push(line_of(alloc, piece)?)?;
    }
    Ok(lines)
}
