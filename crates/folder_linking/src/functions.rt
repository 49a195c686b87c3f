// The functions of the bodies that are needed.
ghost use Rattle.std.specs.Prelude.{◌≡◌, IfOk, length, map};
ghost use Rattle.std.specs.List.{Contains};
ghost use Rattle.dispatch_laws.specs.Targets.{lookup_in};
ghost use Rattle.sj_emit_expr_questions.specs.Task.{emitted, emitted_view};
ghost use Rattle.js_tree.specs.Views.{piece_view};
ghost use Rattle.sj_core.specs.Views.{method_view};
ghost use Rattle.sj_desugar.specs.Methods.{method_desugared};
ghost use Rattle.sj_emit_expr_spec.specs.Members as members;
ghost use Rattle.sj_emit_expr_pieces.specs.Owners.{BodyOnObjects};
ghost use Rattle.js_tree.specs.Rules.{IsPiece};
ghost use Rattle.sj_names.specs.declared.method_names.Member.{Member};
ghost use Rattle.sj_world.specs.Members.{IsMethodOf};
ghost use Rattle.sj_world.specs.Refusals.{IsInOrder};
ghost use Rattle.folder_judging.specs.Stages.{IsDefined};
ghost use Rattle.folder_judging.specs.Counts.{members_of, bodies_among};
ghost use Rattle.folder_linking.specs.Counts.{Emits};
ghost use Rattle.folder_linking.specs.Functions.{AreFunctions, AreListed, IsFunction};
ghost use Rattle.sj_text_spec.specs.Rules.{IsListedMethod};

use crate::members::needed_members;
use folder_judging::definition_of;
use js_tree::{JsMember, JsPiece};
use sj_ask::WorldOracle;
use sj_core::CoreMethod;
use sj_desugar::desugar;
use sj_emit_expr_pieces::member_piece;
use sj_names::{Member, NoMemory};
use sj_recorder::Recorder;
use sj_trees::MethodDef;
use sj_workers::Workers;
use sj_world::{LinkedWorld, World};
use std::alloc::Global;

/// The function of a needed body.
#[derive(Drop)]
pub struct Function<'w> {
    pub member: &'w Member,
    pub piece: JsPiece,
}

/// The functions of the bodies that are needed, in the order of the facts. Each body is emitted once.
pub fn functions_of_bodies<'w, W: Workers>(
    alloc: Global,
    linked: &'w LinkedWorld,
    work: &mut W,
) -> Result<Vec<Function<'w>>, NoMemory>
    requires defined { (k : Member) → Contains (members_of linked.now.facts) k → IsDefined linked.now.world k }
    requires in_order { IsInOrder linked.now.world }
    requires listed { AreListed linked.now.world }
    ensures functions { IfOk result (λ fs. AreFunctions linked.now.world (members_of linked.now.facts) fs.items) }
    ensures counted { Emits (bodies_among linked.now.facts) result (W.meter work.old) (W.meter work.new) }
{
    let members = needed_members(alloc, linked.facts())?;
    functions_of(alloc, linked, &members, work)
}

fn functions_of<'w, W: Workers>(
    alloc: Global,
    linked: &LinkedWorld,
    members: &[&'w Member],
    work: &mut W,
) -> Result<Vec<Function<'w>>, NoMemory>
    requires defined { (k : Member) → Contains (map (λ m. m.now) members.now) k → IsDefined linked.now.world k }
    requires in_order { IsInOrder linked.now.world }
    requires listed { AreListed linked.now.world }
    ensures functions { IfOk result (λ fs. AreFunctions linked.now.world (map (λ m. m.now) members.now) fs.items) }
    ensures counted { Emits (length members.now) result (W.meter work.old) (W.meter work.new) }
{
    let mut functions = Vec::new(alloc);
    for member in members {
        let function = function_of(alloc, linked, member, work)?;
        functions.push(function)?;
    }
    Ok(functions)
}

fn function_of<'w, W: Workers>(
    alloc: Global,
    linked: &LinkedWorld,
    member: &'w Member,
    work: &mut W,
) -> Result<Function<'w>, NoMemory>
    requires defined { IsDefined linked.now.world member.now }
    requires in_order { IsInOrder linked.now.world }
    requires listed { AreListed linked.now.world }
    ensures function { IfOk result (λ f. (f.member.now ≡ member.now) × IsFunction linked.now.world f) }
    ensures counted { Emits 1 result (W.meter work.old) (W.meter work.new) }
{
    let definition = known_definition(linked.world(), member);
    let piece = emitted_piece(alloc, linked, member, definition, work)?;
    Ok(Function { member, piece })
}

// The piece of the member, which has this definition.
fn emitted_piece<W: Workers>(
    alloc: Global,
    linked: &LinkedWorld,
    member: &Member,
    definition: &MethodDef,
    work: &mut W,
) -> Result<JsPiece, NoMemory>
    requires in_order { IsInOrder linked.now.world }
    requires listed { AreListed linked.now.world }
    requires defined { IsListedMethod definition.now }
    ensures piece { IfOk result (λ p. piece_view p ≡ members.member_piece (lookup_in linked.now.world) member.now (method_desugared definition.now)) }
    ensures rules { BodyOnObjects definition.now.body → IfOk result (λ p. IsPiece (piece_view p)) }
    ensures counted { Emits 1 result (W.meter work.old) (W.meter work.new) }
{
    let core = desugar(alloc, definition)?;
    let emitted = emit(alloc, linked, member, &core, work)?;
    member_piece(alloc, member, &core, emitted)
}

// The emitted function of the member, whose calls run the targets of the world.
fn emit<W: Workers>(
    alloc: Global,
    linked: &LinkedWorld,
    member: &Member,
    core: &CoreMethod,
    work: &mut W,
) -> Result<JsMember, NoMemory>
    requires { IsInOrder linked.now.world }
    ensures emitted { IfOk result (λ e. emitted_view e ≡ emitted (lookup_in linked.now.world) (method_view core.now)) }
    ensures counted { Emits 1 result (W.meter work.old) (W.meter work.new) }
{
    let mut recorder = Recorder::new(alloc, member.copied()?, WorldOracle::new(linked, member));
    work.emit_member(alloc, core, &mut recorder)
}

// The definition of the member, which has one.
fn known_definition<'w>(world: &'w World, member: &Member) -> &'w MethodDef
    requires { IsDefined world.now member.now }
    ensures { IsMethodOf world.now member.now result.now }
{
    match definition_of(world, member) {
        Some(definition) => definition,
        None => unreachable!(),
    }
}
