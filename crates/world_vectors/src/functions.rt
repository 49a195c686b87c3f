// The functions of the bodies that are needed.
ghost use Rattle.std.specs.Prelude.{◌≡◌, true, All, IfOk, IfSome, map};
ghost use Rattle.js_tree.specs.Rules.{IsPiece};
ghost use Rattle.js_tree.specs.Views.{piece_view};
ghost use Rattle.sj_core.specs.Views.{method_view};
ghost use Rattle.sj_emit_expr_pieces.specs.Owners.{BodyOnObjects};
ghost use Rattle.sj_emit_expr_pieces.specs.Ranges.{AreBytes};
ghost use Rattle.world_vectors.specs.Emitted.{IsEmitted};

use crate::objects::is_on_objects;
use js_tree::{JsMember, JsPiece};
use method_ranges::method_fits;
use sj_ask::WorldOracle;
use sj_core::CoreMethod;
use sj_desugar::desugar;
use sj_emit_class_printing::name_fits;
use sj_emit_expr::emit_member;
use sj_emit_expr_pieces::{
    desugared_fields_have_owners, desugared_members_have_keys, member_piece,
};
use sj_names::{Member, Meter, NoMemory};
use sj_trees::{ClassDef, MethodDef};
use sj_world::{Fact, LinkedWorld, World, method_in};
use std::alloc::Global;

/// The functions of the bodies that are needed, in the order of the facts; `None` where a field isn't by its form one of an object.
pub(crate) fn functions_of(
    alloc: Global,
    linked: &LinkedWorld,
) -> Result<Option<Vec<JsPiece>>, NoMemory>
    ensures { IfOk result (λ found. IfSome found (λ functions. All IsPiece (map piece_view functions.items))) }
{
    let mut functions = Vec::new(alloc);
    for fact in linked.facts() {
        if let Fact::Body(member) = fact {
            match function_of(alloc, linked, member)? {
                Some(function) => functions.push(function)?,
                None => return Ok(None),
            }
        }
    }
    Ok(Some(functions))
}

fn function_of(
    alloc: Global,
    linked: &LinkedWorld,
    member: &Member,
) -> Result<Option<JsPiece>, NoMemory>
    ensures { IfOk result (λ found. IfSome found (λ function. IsPiece (piece_view function))) }
{
    match definition_of(linked.world(), member) {
        Some(definition) if has_fields_of_objects(definition) => Ok(Some(emitted(
            alloc, linked, member, definition,
        )?)),
        _ => Ok(None),
    }
}

fn definition_of<'w>(world: &'w World, member: &Member) -> Option<&'w MethodDef> {
    match world.class(&member.class) {
        Some(class) => method_in(class.methods.as_slice(), member),
        None => None,
    }
}

// Whether the method has a body, in which each field is by its form one of an object.
fn has_fields_of_objects(method: &MethodDef) -> bool
    ensures { result ≡ true → BodyOnObjects method.now.body }
{
    match &method.body {
        Some(body) => is_on_objects(body.tree()),
        None => false,
    }
}

// The piece of a method whose fields are those of objects.
fn emitted(
    alloc: Global,
    linked: &LinkedWorld,
    member: &Member,
    method: &MethodDef,
) -> Result<JsPiece, NoMemory>
    requires { BodyOnObjects method.now.body }
    ensures { IfOk result (λ p. IsPiece (piece_view p)) }
{
    desugared_members_have_keys();
    desugared_fields_have_owners();
    let core = desugar(alloc, method)?;
    method_fits(&core);
    let function = emitted_function(alloc, linked, member, &core)?;
    member_piece(alloc, member, &core, function)
}

fn emitted_function(
    alloc: Global,
    linked: &LinkedWorld,
    member: &Member,
    core: &CoreMethod,
) -> Result<JsMember, NoMemory>
    ensures { IfOk result (IsEmitted (method_view core.now)) }
{
    class_names_fit(linked.world().classes());
    let mut oracle = WorldOracle::new(linked, member);
    emit_member(alloc, core, &mut oracle, &mut Meter::new())
}

// The names of classes are texts of bytes.
fn class_names_fit(classes: &[ClassDef])
    ensures { All (λ c. AreBytes c.name) classes.now }
{
    for class in classes {
        name_fits(&class.name);
    }
}
