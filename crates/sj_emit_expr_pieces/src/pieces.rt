// The piece of a method.
ghost use Rattle.std.specs.Prelude.{◌≡◌, IfOk};
ghost use Rattle.sj_emit_expr_questions.specs.Task as task;
ghost use Rattle.sj_emit_expr_questions.specs.Task.{emitted_view};
ghost use Rattle.js_tree.specs.Rules.{IsPiece};
ghost use Rattle.js_tree.specs.Views.{body_view, piece_view};
ghost use Rattle.sj_core.specs.Lookup.{Lookup};
ghost use Rattle.sj_core.specs.Views.{method_view};
ghost use Rattle.sj_emit_expr_pieces.specs.Fits.{TargetsFit};
ghost use Rattle.sj_emit_expr_pieces.specs.Keys.{HasKeys};
ghost use Rattle.sj_emit_expr_pieces.specs.Owners.{FieldsHaveOwners};
ghost use Rattle.sj_emit_expr_pieces.specs.Ranges.{FitsMethod};
ghost use Rattle.sj_emit_expr_spec.specs.Members as members;
ghost use Rattle.sj_emit_expr_spec.specs.Pieces as pieces;

use crate::ranges::member_fits;
use js_tree::{JsItem, JsMember, JsPiece};
use sj_core::CoreMethod;
use sj_mangling::function_name;
use sj_names::{Member, NoMemory};
use std::alloc::Global;
use std::rc::Rc;

/// The piece of a method, with a receiver or without one, of which this is the emitted function by what is known of the classes: the function, under the
/// name of the member, which the member's class owns. Where the method's names, numbers and units are in their ranges, each case of a switch has a key, each
/// field and each method that is looked up is one of what may stand before `.`, and the targets have names of bytes, the piece keeps the rules of printing.
/// Want of memory is the only error.
pub fn member_piece(
    alloc: Global,
    member: &Member,
    m: &CoreMethod,
    emitted: JsMember,
) -> Result<JsPiece, NoMemory>
    ensures piece { (known : Lookup) → emitted_view emitted ≡ task.emitted known (method_view m.now) → IfOk result (λ p. piece_view p ≡ members.member_piece known member.now (method_view m.now)) }
    ensures rules { (known : Lookup) → emitted_view emitted ≡ task.emitted known (method_view m.now) → FitsMethod (method_view m.now) → HasKeys (method_view m.now) → FieldsHaveOwners (method_view m.now) → TargetsFit known (method_view m.now) → IfOk result (λ p. IsPiece (piece_view p)) }
{
    member_fits(member);
    function_piece(alloc, member, emitted)
}

// The piece of an emitted function.
fn function_piece(alloc: Global, member: &Member, emitted: JsMember) -> Result<JsPiece, NoMemory>
    ensures { IfOk result (λ p. piece_view p ≡ pieces.function_piece member.now emitted.params (body_view emitted.body) emitted.uses) }
{
    let name = function_name(alloc, member)?;
    let item = JsItem::Function {
        name: name.copied()?,
        parameters: emitted.params,
        body: emitted.body,
    };
    Ok(JsPiece {
        owner: member.class.copied()?,
        name,
        uses: emitted.uses,
        item: Rc::new(alloc, item)?,
    })
}
