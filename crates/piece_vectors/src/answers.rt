// The lines that are answered.
ghost use Rattle.std.specs.Prelude.{All, map};
ghost use Rattle.js_tree.specs.Rules.{IsPiece};
ghost use Rattle.js_tree.specs.Views.{piece_view};

use crate::helpers::helper_line;
use crate::texts::line_of;
use anyhow::Result;
use entries_file::entries_of;
use js_tree::JsPiece;
use sj_baselink::base_link;
use sj_emit_class::{class_pieces, entries_by_class};
use sj_emit_class_needs::needs_of;
use sj_reach::reach;
use sj_trees::ClassDef;
use sj_world::{LinkedWorld, World};
use std::alloc::Global;

/// For each class the lines of its pieces, and for each helper that is wanted its line; none where the folder isn't accepted.
pub(crate) fn answered(
    alloc: Global,
    classes: Vec<ClassDef>,
    entries: &[u8],
    owners: &[String],
    wanted: &[String],
) -> Result<Vec<String>> {
    let world = World::new(alloc, classes)?;
    let Ok(entries) = entries_of(alloc, entries) else {
        return Ok(Vec::new(alloc));
    };
    match reach(alloc, &world, &entries) {
        Ok(reached) => match base_link(alloc, &world, &reached) {
            Ok(linked) => lines_of(alloc, &linked, owners, wanted),
            Err(_) => Ok(Vec::new(alloc)),
        },
        Err(_) => Ok(Vec::new(alloc)),
    }
}

fn lines_of(
    alloc: Global,
    linked: &LinkedWorld,
    owners: &[String],
    wanted: &[String],
) -> Result<Vec<String>> {
    let needs = needs_of(alloc, linked)?;
    let entries = entries_by_class(alloc, linked)?;
    let mut lines = Vec::new(alloc);
    for owner in owners {
        if let Some(class) = linked.world().class_named(owner.as_str()) {
            let pieces = class_pieces(alloc, linked, &needs, &entries, &class.name)?;
            put_pieces(alloc, &pieces, &mut lines)?;
        }
        if owner.as_str() == "java.lang.Object" {
            put_helpers(alloc, linked, wanted, &mut lines)?;
        }
    }
    Ok(lines)
}

fn put_pieces(alloc: Global, pieces: &[JsPiece], lines: &mut Vec<String>) -> Result<()>
    requires { All IsPiece (map piece_view pieces.now) }
{
    for piece in pieces {
        lines.push(line_of(alloc, "piece", piece)?)?;
    }
    Ok(())
}

fn put_helpers(
    alloc: Global,
    linked: &LinkedWorld,
    wanted: &[String],
    lines: &mut Vec<String>,
) -> Result<()> {
    for line in wanted {
        if let Some(name) = helper_in(line.as_str()) {
            if let Some(line) = helper_line(alloc, linked, name)? {
                lines.push(line)?;
            }
        }
    }
    Ok(())
}

// The name in the line of a helper.
fn helper_in<'l>(line: &'l str) -> Option<&'l str> {
    let mut fields = line.split('\t');
    if fields.next() == Some("helper") {
        fields.nth(1)
    } else {
        None
    }
}
