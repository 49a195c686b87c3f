// The lines of pieces.
ghost use Rattle.js_tree.specs.Rules.{IsPiece};
ghost use Rattle.js_tree.specs.Views.{piece_view};

use anyhow::Result;
use js_print::print_piece;
use js_tree::{Binding, JsPiece};
use std::alloc::Global;

/// The fields of a piece behind its kind, as the input has them.
pub(crate) fn line_of(alloc: Global, piece: &JsPiece) -> Result<String>
    requires { IsPiece (piece_view piece.now) }
{
    let mut line = String::from_str(alloc, piece.owner.text())?;
    add(&["\t", piece.name.as_str(), "\t"], &mut line)?;
    add_uses(piece.uses.as_slice(), &mut line)?;
    add_text(alloc, piece, &mut line)?;
    Ok(line)
}

fn add_text(alloc: Global, piece: &JsPiece, line: &mut String) -> Result<()>
    requires { IsPiece (piece_view piece.now) }
{
    let text = String::from_utf8(print_piece(alloc, piece)?)?;
    for each in text.as_str().lines() {
        add(&["\t", each], line)?;
    }
    Ok(())
}

fn add_uses(bindings: &[Binding], line: &mut String) -> Result<()> {
    let mut separator = "";
    for used in bindings {
        add(
            &[separator, used.owner.text(), " ", used.name.as_str()],
            line,
        )?;
        separator = ",";
    }
    Ok(())
}

fn add(words: &[&str], line: &mut String) -> Result<()> {
    for word in words {
        line.push_str(word)?;
    }
    Ok(())
}
