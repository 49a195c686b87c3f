// The pieces of a class.
ghost use Rattle.std.specs.Prelude.{◌≡◌, map, All, IfOk, Some};
ghost use Rattle.js_tree.specs.Rules.{IsPiece};
ghost use Rattle.js_tree.specs.Views.{piece_view};
ghost use Rattle.sj_emit_class_needs.specs.Needs.{AreNeeds};
ghost use Rattle.sj_emit_class.specs.Entries.{AreByClass};
ghost use Rattle.sj_emit_class_spec.specs.Classes.{AreClassPieces, AreParts};
ghost use Rattle.sj_emit_class_parts.specs.Parts.{parts_view};
ghost use Rattle.sj_world.specs.Known.{class_of};
ghost use Rattle.sj_world.specs.Tables.{AreAncestors};

use crate::entries::own_entries;
use crate::fields::own_fields;
use crate::instances::instances_of;
use crate::marks::marks_of;
use crate::ranges::parts_fit;
use crate::statics::statics_of;
use class_lists::Lists;
use indexmap::IndexSet;
use js_tree::JsPiece;
use sj_emit_class_needs::ClassNeed;
use sj_emit_class_parts::{ClassParts, pieces_of};
use sj_emit_class_printing::pieces_of_classes_are_pieces;
use sj_names::{ClassName, NoMemory};
use sj_trees::ClassDef;
use sj_world::{LinkedWorld, MethodEntry};
use std::alloc::Global;

/// The pieces of a class of a linked world, in order, but for the functions of its methods; none, where the world hasn't the class. `needs`
/// is what the classes of the world need, and `entries` the method entries of the world under the names of their classes. Each piece keeps the
/// rules of printing. Want of memory is the only error.
pub fn class_pieces(
    alloc: Global,
    w: &LinkedWorld,
    needs: &IndexSet<ClassNeed>,
    entries: &Lists<&MethodEntry>,
    name: &ClassName,
) -> Result<Vec<JsPiece>, NoMemory>
    requires needs { AreNeeds w.now.world w.now.facts needs.now.keys }
    requires entries { AreByClass w.now.entries entries.now }
    ensures pieces { IfOk result (λ ps. AreClassPieces w.now name.now (map piece_view ps.items)) }
    ensures rules { IfOk result (λ ps. All IsPiece (map piece_view ps.items)) }
{
    match w.world().class(name) {
        Some(class) => pieces_with(alloc, w, needs, entries, name, class),
        None => Ok(Vec::new(alloc)),
    }
}

fn pieces_with(
    alloc: Global,
    w: &LinkedWorld,
    needs: &IndexSet<ClassNeed>,
    entries: &Lists<&MethodEntry>,
    name: &ClassName,
    class: &ClassDef,
) -> Result<Vec<JsPiece>, NoMemory>
    requires needs { AreNeeds w.now.world w.now.facts needs.now.keys }
    requires entries { AreByClass w.now.entries entries.now }
    requires class { class_of w.now.world name.now ≡ Some class.now }
    ensures pieces { IfOk result (λ ps. AreClassPieces w.now name.now (map piece_view ps.items)) }
    ensures rules { IfOk result (λ ps. All IsPiece (map piece_view ps.items)) }
{
    match w.world().ancestors(name) {
        Some(ancestors) => pieces_below(alloc, w, needs, entries, name, class, ancestors),
        None => unreachable!(),
    }
}

fn pieces_below(
    alloc: Global,
    w: &LinkedWorld,
    needs: &IndexSet<ClassNeed>,
    entries: &Lists<&MethodEntry>,
    name: &ClassName,
    class: &ClassDef,
    ancestors: &[ClassName],
) -> Result<Vec<JsPiece>, NoMemory>
    requires needs { AreNeeds w.now.world w.now.facts needs.now.keys }
    requires entries { AreByClass w.now.entries entries.now }
    requires class { class_of w.now.world name.now ≡ Some class.now }
    requires ancestors { AreAncestors w.now.world name.now ancestors.now }
    ensures pieces { IfOk result (λ ps. AreClassPieces w.now name.now (map piece_view ps.items)) }
    ensures rules { IfOk result (λ ps. All IsPiece (map piece_view ps.items)) }
{
    let parts = parts_of(alloc, w, needs, entries, name, class, ancestors)?;
    parts_fit(&parts);
    pieces_of_classes_are_pieces();
    pieces_of(alloc, &parts)
}

fn parts_of<'w>(
    alloc: Global,
    w: &LinkedWorld,
    needs: &IndexSet<ClassNeed>,
    entries: &Lists<&'w MethodEntry>,
    name: &ClassName,
    class: &'w ClassDef,
    ancestors: &'w [ClassName],
) -> Result<ClassParts<'w>, NoMemory>
    requires needs { AreNeeds w.now.world w.now.facts needs.now.keys }
    requires entries { AreByClass w.now.entries entries.now }
    requires class { class_of w.now.world name.now ≡ Some class.now }
    requires ancestors { AreAncestors w.now.world name.now ancestors.now }
    ensures { IfOk result (λ parts. AreParts w.now name.now (parts_view parts)) }
{
    let entries = own_entries(alloc, w, entries, name)?;
    let fields = own_fields(alloc, class.fields.as_slice())?;
    let statics = statics_of(alloc, w, needs, name, class.fields.as_slice())?;
    let instances = instances_of(alloc, w.world(), name)?;
    let marks = marks_of(w, needs, name)?;
    Ok(ClassParts {
        class,
        ancestors,
        entries,
        fields,
        statics,
        instances,
        is_live: marks.is_live,
        is_base: marks.is_base,
        is_loaded: marks.is_loaded,
        is_stored: marks.is_stored,
        is_tested: marks.is_tested,
        is_cast: marks.is_cast,
    })
}
