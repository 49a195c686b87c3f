// The lines of pieces.
ghost use Rattle.js_tree.specs.Rules.{IsPiece};
ghost use Rattle.js_tree.specs.Views.{piece_view};

use anyhow::Result;
use js_print::print_piece;
use js_tree::{Binding, JsPiece};
use std::alloc::Global;

/// The line of a piece, as the input has it.
pub(crate) fn line_of(alloc: Global, kind: &str, piece: &JsPiece) -> Result<String>
    requires { IsPiece (piece_view piece.now) }
{
    let mut line = String::from_str(alloc, kind)?;
    add(
        &["\t", piece.owner.text(), "\t", piece.name.as_str()],
        &mut line,
    )?;
    add_uses(piece.uses.as_slice(), &mut line)?;
    let text = String::from_utf8(print_piece(alloc, piece)?)?;
    for each in text.as_str().lines() {
        add(&["\t", each], &mut line)?;
    }
    Ok(line)
}

fn add_uses(bindings: &[Binding], line: &mut String) -> Result<()> {
    let mut separator = "\t";
    for used in bindings {
        add(
            &[separator, used.owner.text(), " ", used.name.as_str()],
            line,
        )?;
        separator = ",";
    }
    if bindings.is_empty() {
        line.push('\t')?;
    }
    Ok(())
}

// Adds the words.
fn add(words: &[&str], line: &mut String) -> Result<()> {
    for word in words {
        line.push_str(word)?;
    }
    Ok(())
}
