// The classes with their own pieces and their functions.
ghost use Rattle.std.specs.Prelude.{◌≡◌, List, map, IfOk};
ghost use Rattle.std.specs.List.{IsDistinct, filter};
ghost use Rattle.sj_emit_class_needs.specs.Needs.{AreNeeds};
ghost use Rattle.sj_emit_class.specs.Entries.{AreByClass};
ghost use Rattle.js_tree.specs.declared.items.JsPiece.{JsPiece as Function};
ghost use Rattle.sj_world.specs.Known.{Name, is_same};
ghost use Rattle.world_pieces.specs.Blocks.{IsMade, AreMade};
ghost use Rattle.world_pieces.specs.Functions.{group_of, is_owned};
ghost use Rattle.world_pieces.specs.Places.{name_of};

use crate::classes::ClassPlace;
use crate::functions::{FunctionGroups, in_order};
use class_lists::Lists;
use indexmap::IndexSet;
use js_tree::JsPiece;
use sj_emit_class::{class_pieces, entries_by_class};
use sj_emit_class_needs::{ClassNeed, needs_of};
use sj_names::{ClassName, NoMemory};
use sj_world::{LinkedWorld, MethodEntry};
use std::alloc::Global;

/// A class with its own pieces and its functions.
#[derive(Drop)]
pub struct Block {
    pub class: ClassName,
    pub own: Vec<JsPiece>,
    pub functions: Vec<JsPiece>,
}

/// The blocks of the classes, in their order, with these functions.
pub fn blocks_of(
    alloc: Global,
    linked: &LinkedWorld,
    classes: &[ClassPlace],
    functions: Vec<JsPiece>,
) -> Result<Vec<Block>, NoMemory>
    requires { IsDistinct is_same (map name_of classes.now) }
    ensures { IfOk result (λ bs. AreMade linked.now functions.items (map name_of classes.now) bs.items) }
{
    let needs = needs_of(alloc, linked)?;
    let entries = entries_by_class(alloc, linked)?;
    let groups = FunctionGroups::of(alloc, functions)?;
    blocks_with(alloc, linked, &needs, &entries, classes, groups)
}

fn blocks_with(
    alloc: Global,
    linked: &LinkedWorld,
    needs: &IndexSet<ClassNeed>,
    entries: &Lists<&MethodEntry>,
    classes: &[ClassPlace],
    mut groups: FunctionGroups,
) -> Result<Vec<Block>, NoMemory>
    requires once { IsDistinct is_same (map name_of classes.now) }
    requires needs { AreNeeds linked.now.world linked.now.facts needs.now.keys }
    requires entries { AreByClass linked.now.entries entries.now }
    ensures { (functions : List Function) → ((c : Name) → group_of groups c ≡ filter (is_owned c) functions) → IfOk result (λ bs. AreMade linked.now functions (map name_of classes.now) bs.items) }
{
    let mut blocks = Vec::new(alloc);
    for class in classes {
        let functions = groups.take(alloc, &class.name);
        blocks.push(block_of(alloc, linked, needs, entries, &class.name, functions)?)?;
    }
    Ok(blocks)
}

fn block_of(
    alloc: Global,
    linked: &LinkedWorld,
    needs: &IndexSet<ClassNeed>,
    entries: &Lists<&MethodEntry>,
    class: &ClassName,
    functions: Vec<JsPiece>,
) -> Result<Block, NoMemory>
    requires needs { AreNeeds linked.now.world linked.now.facts needs.now.keys }
    requires entries { AreByClass linked.now.entries entries.now }
    ensures class { IfOk result (λ b. b.class ≡ class.now) }
    ensures made { IfOk result (IsMade linked.now functions.items) }
{
    let own = class_pieces(alloc, linked, needs, entries, class)?;
    Ok(Block {
        class: class.copied()?,
        own,
        functions: in_order(functions),
    })
}
