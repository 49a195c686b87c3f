// The classes above the classes of the kinds, and the pieces of helpers.
ghost use Rattle.std.specs.Prelude.{◌≡◌, map, All, IfOk};
ghost use Rattle.sj_emit_help_spec.specs.Helpers as rules;
ghost use Rattle.sj_emit_help_spec.specs.Words.{kind_class};
ghost use Rattle.js_tree.specs.Rules.{IsPiece};
ghost use Rattle.js_tree.specs.Views.{piece_view};
ghost use Rattle.linked_pieces.specs.Pieces.{AreAbove};
ghost use Rattle.sj_world.specs.Tables.{AreAncestors};
ghost use Rattle.world_pieces.specs.Above.{above_of};

use js_tree::JsPiece;
use piece_making::class_of_kind;
use sj_emit_help::helper_piece;
use sj_emit_help_spec::{Helper, Kind};
use sj_names::{ClassName, NoMemory, Text};
use sj_world::World;
use std::alloc::Global;

/// The ancestors of the class of each kind.
#[derive(Clone, Copy)]
pub struct KindAncestors<'w> {
    undefined: &'w [ClassName],
    boolean: &'w [ClassName],
    char: &'w [ClassName],
    byte: &'w [ClassName],
    short: &'w [ClassName],
    int: &'w [ClassName],
    long: &'w [ClassName],
    text: &'w [ClassName],
}

/// The ancestors of the classes of the kinds in a world.
pub fn above_kinds<'w>(alloc: Global, world: &'w World) -> Result<KindAncestors<'w>, NoMemory>
    ensures { IfOk result (λ above. AreAbove world.now (above_of above)) }
{
    Ok(KindAncestors {
        undefined: above_kind(alloc, world, Kind::Undefined)?,
        boolean: above_kind(alloc, world, Kind::Boolean)?,
        char: above_kind(alloc, world, Kind::Char)?,
        byte: above_kind(alloc, world, Kind::Byte)?,
        short: above_kind(alloc, world, Kind::Short)?,
        int: above_kind(alloc, world, Kind::Int)?,
        long: above_kind(alloc, world, Kind::Long)?,
        text: above_kind(alloc, world, Kind::Text)?,
    })
}

fn above_kind<'w>(alloc: Global, world: &'w World, kind: Kind) -> Result<&'w [ClassName], NoMemory>
    ensures { IfOk result (λ names. AreAncestors world.now (kind_class kind) names.now) }
{
    let class = ClassName::of_text(Text::from_str(alloc, class_of_kind(kind))?);
    match world.ancestors(&class) {
        Some(names) => Ok(names),
        None => unreachable!(),
    }
}

fn above_one<'w>(above: &KindAncestors<'w>, kind: Kind) -> &'w [ClassName]
    ensures { result.now ≡ above_of above.now kind }
{
    match kind {
        Kind::Undefined => above.undefined,
        Kind::Boolean => above.boolean,
        Kind::Char => above.char,
        Kind::Byte => above.byte,
        Kind::Short => above.short,
        Kind::Int => above.int,
        Kind::Long => above.long,
        Kind::Text => above.text,
    }
}

/// The pieces of helpers, in their order. Each keeps the rules of printing.
pub fn helper_pieces(
    alloc: Global,
    above: &KindAncestors<'_>,
    helpers: &[Helper],
) -> Result<Vec<JsPiece>, NoMemory>
    ensures pieces { IfOk result (λ ps. map piece_view ps.items ≡ map (rules.helper_piece (above_of above.now)) helpers.now) }
    ensures rules { IfOk result (λ ps. All IsPiece (map piece_view ps.items)) }
{
    let mut pieces = Vec::new(alloc);
    for helper in helpers {
        pieces.push(piece_of(alloc, above, *helper)?)?;
    }
    Ok(pieces)
}

fn piece_of(alloc: Global, above: &KindAncestors<'_>, helper: Helper) -> Result<JsPiece, NoMemory>
    ensures piece { IfOk result (λ p. piece_view p ≡ rules.helper_piece (above_of above.now) helper) }
    ensures rules { IfOk result (λ p. IsPiece (piece_view p)) }
{
    helper_piece(alloc, helper, above_helper(above, helper))
}

// The ancestors of the class of the kind that the helper is about.
fn above_helper<'w>(above: &KindAncestors<'w>, helper: Helper) -> &'w [ClassName]
    ensures { rules.helper_piece (λ _. result.now) helper ≡ rules.helper_piece (above_of above.now) helper }
{
    match helper {
        Helper::ConstantsOf(kind) => above_one(above, kind),
        _ => &[],
    }
}
