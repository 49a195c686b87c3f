// The functions of methods.
ghost use Rattle.std.specs.Prelude.{◌≡◌, [], IfOk};
ghost use Rattle.dispatch_laws.specs.Targets.{lookup_in};
ghost use Rattle.sj_emit_expr_questions.specs.Task as task;
ghost use Rattle.sj_emit_expr_questions.specs.Task.{emitted_view};
ghost use Rattle.js_tree.specs.Rules.{IsPiece};
ghost use Rattle.js_tree.specs.Views.{piece_view};
ghost use Rattle.sj_core.specs.Views.{method_view};
ghost use Rattle.sj_desugar.specs.Methods.{method_desugared};
ghost use Rattle.sj_emit_expr_spec.specs.Members as members;
ghost use Rattle.sj_emit_expr_pieces.specs.Owners.{BodyOnObjects};

use crate::forms::is_without_objects;
use crate::texts::{add, add_digits, class_of};
use js_print::print_piece;
use js_tree::{JsMember, JsPiece};
use method_ranges::method_fits;
use sj_ask::WorldOracle;
use sj_core::CoreMethod;
use sj_desugar::desugar;
use sj_emit_expr::emit_member;
use sj_emit_expr_pieces::{
    desugared_fields_have_owners, desugared_members_have_keys, member_piece,
};
use sj_mangling::function_name;
use sj_names::{ClassName, Member, Meter, NameError, NoMemory};
use sj_trees::{ClassDef, MethodDef};
use sj_world::LinkedWorld;
use std::alloc::Global;

/// Adds for each method of the class of a file `piece`, the name of its function, and the bytes of the printed function in hexadecimal digits. In place of
/// the bytes it has `of objects` where the method has no body, or one that has to do with objects: a world tells what such a one calls.
pub(crate) fn add_answer(alloc: Global, file: &str, text: &mut String) -> Result<(), NameError> {
    match class_of(alloc, file) {
        Some(class) => add_methods(alloc, &class, text),
        None => Ok(()),
    }
}

// A line for each method of a class.
fn add_methods(alloc: Global, class: &ClassDef, text: &mut String) -> Result<(), NameError> {
    for method in class.methods.as_slice() {
        add_line(alloc, &class.name, method, text)?;
    }
    Ok(())
}

fn add_line(
    alloc: Global,
    class: &ClassName,
    method: &MethodDef,
    text: &mut String,
) -> Result<(), NameError> {
    let member = member_of(class, method)?;
    add_name(alloc, &member, text)?;
    add_piece(alloc, &member, method, text)
}

fn member_of(class: &ClassName, method: &MethodDef) -> Result<Member, NoMemory> {
    Ok(Member {
        class: class.copied()?,
        namespace: method.namespace,
        method: method.name.copied()?,
    })
}

fn add_name(alloc: Global, member: &Member, text: &mut String) -> Result<(), NameError> {
    let name = function_name(alloc, member)?;
    add(&["piece\t", name.as_str(), "\t"], text)
}

fn add_piece(
    alloc: Global,
    member: &Member,
    method: &MethodDef,
    text: &mut String,
) -> Result<(), NameError> {
    if is_without_objects(method) {
        let piece = emitted(alloc, member, method)?;
        add_printed(alloc, &piece, text)
    } else {
        add(&["of objects\n"], text)
    }
}

fn add_printed(alloc: Global, piece: &JsPiece, text: &mut String) -> Result<(), NameError>
    requires { IsPiece (piece_view piece.now) }
{
    let bytes = print_piece(alloc, piece)?;
    add_digits(alloc, bytes.as_slice(), text)
}

// The piece of a method whose fields are those of objects, in which a call on a receiver runs the member that it names.
fn emitted(alloc: Global, member: &Member, method: &MethodDef) -> Result<JsPiece, NoMemory>
    requires { BodyOnObjects method.now.body }
    ensures piece { IfOk result (λ p. piece_view p ≡ members.member_piece (lookup_in []) member.now (method_desugared method.now)) }
    ensures rules { IfOk result (λ p. IsPiece (piece_view p)) }
{
    desugared_members_have_keys();
    desugared_fields_have_owners();
    let core = desugar(alloc, method)?;
    method_fits(&core);
    let function = emitted_function(alloc, member, &core)?;
    member_piece(alloc, member, &core, function)
}

// The function of a method, emitted in a world without classes: there no call on a receiver has a target.
fn emitted_function(alloc: Global, member: &Member, core: &CoreMethod) -> Result<JsMember, NoMemory>
    ensures { IfOk result (λ f. emitted_view f ≡ task.emitted (lookup_in []) (method_view core.now)) }
{
    let world = no_classes(alloc)?;
    let mut oracle = WorldOracle::new(&world, member);
    emit_member(alloc, core, &mut oracle, &mut Meter::new())
}

// The world without classes.
fn no_classes(alloc: Global) -> Result<LinkedWorld, NoMemory>
    ensures { IfOk result (λ w. w.world ≡ []) }
{
    match LinkedWorld::new(alloc, Vec::new(alloc), Vec::new(alloc), Vec::new(alloc)) {
        Ok(world) => Ok(world),
        Err(_) => Err(NoMemory),
    }
}
