// The pieces of a class, made of its parts.
ghost use Rattle.std.specs.Prelude.{◌≡◌, ◌++◌, map, IfOk, OnOk};
ghost use Rattle.js_tree.specs.Views.{piece_view};
ghost use Rattle.sj_emit_class_spec.specs.Pieces as pieces;
ghost use Rattle.sj_emit_class_parts.specs.Parts.{parts_view};

use crate::cells::put_cell;
use crate::classes::{class_piece, constants_piece};
use crate::fields::put_statics;
use crate::tests::{cast_piece, test_piece};
use js_tree::JsPiece;
use sj_emit_help_spec::Kind;
use sj_names::{ClassName, NoMemory};
use sj_trees::{ClassDef, FieldDef};
use sj_world::MethodEntry;
use std::alloc::Global;

/// What the pieces of a class are made of: the class; the classes above it, itself among them, in the order of their bytes; its method
/// entries, its own fields of instances, and its static fields that are reached, each in order; which kinds of primitive values that are
/// told by a word are instances of it; and what there is of it.
#[derive(Drop)]
pub struct ClassParts<'w> {
    pub class: &'w ClassDef,
    pub ancestors: &'w [ClassName],
    pub entries: Vec<&'w MethodEntry>,
    pub fields: Vec<&'w FieldDef>,
    pub statics: Vec<&'w FieldDef>,
    pub instances: Vec<Kind>,
    pub is_live: bool,
    pub is_base: bool,
    pub is_loaded: bool,
    pub is_stored: bool,
    pub is_tested: bool,
    pub is_cast: bool,
}

/// The pieces of a class with these parts, in order. Want of memory is the only error.
pub fn pieces_of(alloc: Global, parts: &ClassParts<'_>) -> Result<Vec<JsPiece>, NoMemory>
    ensures { IfOk result (λ ps. map piece_view ps.items ≡ pieces.pieces (parts_view parts.now)) }
{
    let mut all = Vec::new(alloc);
    put_constants(alloc, parts, &mut all)?;
    put_class(alloc, parts, &mut all)?;
    put_statics(alloc, &parts.class.name, &parts.statics, &mut all)?;
    put_module(alloc, parts, &mut all)?;
    put_tests(alloc, parts, &mut all)?;
    Ok(all)
}

fn put_constants(
    alloc: Global,
    parts: &ClassParts<'_>,
    all: &mut Vec<JsPiece>,
) -> Result<(), NoMemory>
    ensures { OnOk result (map piece_view all.new.items ≡ map piece_view all.old.items ++ pieces.constants_of (parts_view parts.now)) }
{
    if parts.is_live || parts.is_base {
        all.push(constants_piece(alloc, &parts.class.name, parts.ancestors)?)?;
    }
    Ok(())
}

fn put_class(alloc: Global, parts: &ClassParts<'_>, all: &mut Vec<JsPiece>) -> Result<(), NoMemory>
    ensures { OnOk result (map piece_view all.new.items ≡ map piece_view all.old.items ++ pieces.class_of (parts_view parts.now)) }
{
    if parts.is_live {
        let class = parts.class;
        let piece = class_piece(
            alloc,
            &class.name,
            &class.superclass,
            &parts.entries,
            &parts.fields,
        )?;
        all.push(piece)?;
    }
    Ok(())
}

fn put_module(alloc: Global, parts: &ClassParts<'_>, all: &mut Vec<JsPiece>) -> Result<(), NoMemory>
    ensures { OnOk result (map piece_view all.new.items ≡ map piece_view all.old.items ++ pieces.module_of (parts_view parts.now)) }
{
    if parts.is_loaded || parts.is_stored {
        put_cell(alloc, &parts.class.name, parts.is_loaded, all)
    } else {
        Ok(())
    }
}

fn put_tests(alloc: Global, parts: &ClassParts<'_>, all: &mut Vec<JsPiece>) -> Result<(), NoMemory>
    ensures { OnOk result (map piece_view all.new.items ≡ map piece_view all.old.items ++ pieces.tests_of (parts_view parts.now)) }
{
    if parts.is_tested || parts.is_cast {
        all.push(test_piece(alloc, &parts.class.name, &parts.instances)?)?;
    }
    if parts.is_cast {
        all.push(cast_piece(alloc, &parts.class.name)?)?;
    }
    Ok(())
}
