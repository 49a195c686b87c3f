// The types of bodies.
ghost use Rattle.std.specs.Prelude.{◌≡◌, IfOk, IsSome, MatchOption, MatchResult, None};
ghost use Rattle.sj_typing_spec.specs.Typed.{IsTyped};
ghost use Rattle.sj_world.specs.Members.{IsMethodOf, HasNoMethod};
ghost use Rattle.folder_judging.specs.Bodies.{AreInOrder};
ghost use Rattle.folder_judging_spec.specs.Stages.{IsDefined};
ghost use Rattle.folder_judging.specs.Types.{AreDefined, FailsFirst, IsChecked, IsWithBody, IsLeastUntypedIn, is_told_before, IsToldUntyped, ChecksOne, ChecksBodies, ChecksTypes};
ghost use Rattle.folder_judging.specs.Refusals.{IsRefusal};

use crate::JudgeError;
use crate::bodies::{SpelledBody, bodies_in_order};
use crate::refusals::refusal_by_rule;
use crate::reports::first_of;
use sj_ask::{TypeError, WorldOracle};
use sj_names::{Member, NoMemory};
use sj_reach::Report;
use sj_recorder::Recorder;
use sj_trees::MethodDef;
use sj_workers::Workers;
use sj_world::{LinkedWorld, World, method_in};
use std::alloc::Global;

/// `Ok` where each needed body is typed, else the refusal of the least that isn't.
pub fn check_types<W: Workers>(
    alloc: Global,
    linked: &LinkedWorld,
    work: &mut W,
) -> Result<(), JudgeError>
    requires { AreDefined linked.now }
    ensures verdict { MatchResult result (λ _. IsLeastUntypedIn linked.now None) (IsRefusal (IsToldUntyped linked.now)) }
    ensures counted { ChecksTypes linked.now.facts result (W.meter work.old) (W.meter work.new) }
{
    match least_untyped(alloc, linked, work)? {
        Some(untyped) => Err(refusal_by_rule(alloc, 20, &untyped)),
        None => Ok(()),
    }
}

// The least spelling of a needed body that isn't typed, and the rule that fails there first; `None` where each is typed. The bodies are checked in
// the order of their spellings, up to the first that fails.
fn least_untyped<W: Workers>(
    alloc: Global,
    linked: &LinkedWorld,
    work: &mut W,
) -> Result<Option<Report>, NoMemory>
    requires { AreDefined linked.now }
    ensures found { IfOk result (IsLeastUntypedIn linked.now) }
    ensures counted { ChecksBodies linked.now.facts result (W.meter work.old) (W.meter work.new) }
{
    let bodies = bodies_in_order(alloc, linked.facts())?;
    first_untyped(alloc, linked, &bodies, work)
}

fn first_untyped<W: Workers>(
    alloc: Global,
    linked: &LinkedWorld,
    bodies: &[SpelledBody<'_>],
    work: &mut W,
) -> Result<Option<Report>, NoMemory>
    requires defined { AreDefined linked.now }
    requires in_order { AreInOrder linked.now.facts bodies.now }
    ensures found { IfOk result (IsLeastUntypedIn linked.now) }
    ensures counted { ChecksBodies linked.now.facts result (W.meter work.old) (W.meter work.new) }
{
    let mut least: Option<Report> = None;
    for body in bodies {
        if is_behind(&least, body) {
            return Ok(least);
        }
        least = with_body(alloc, linked, least, body, work)?;
    }
    Ok(least)
}

// Whether the body stands behind what was found, so that no more is to be checked.
fn is_behind(least: &Option<Report>, body: &SpelledBody<'_>) -> bool
    ensures { result ≡ is_told_before least.now body.now.spelled }
{
    match least {
        Some(least) => least.place < body.spelled,
        None => false,
    }
}

// The lesser of what was found and what fails in this body.
fn with_body<W: Workers>(
    alloc: Global,
    linked: &LinkedWorld,
    least: Option<Report>,
    body: &SpelledBody<'_>,
    work: &mut W,
) -> Result<Option<Report>, NoMemory>
    requires { IsDefined linked.now.world body.now.member.now }
    ensures found { IfOk result (IsWithBody linked.now.world least body.now) }
    ensures counted { ChecksOne result (W.meter work.old) (W.meter work.new) }
{
    match check_body(alloc, linked, body.member, work)? {
        Some(rule) => {
            let place = body.spelled.copied()?;
            Ok(Some(first_of(least, Report { code: rule, place })))
        }
        None => Ok(least),
    }
}

// The rule that the body fails first, if it does.
fn check_body<W: Workers>(
    alloc: Global,
    linked: &LinkedWorld,
    member: &Member,
    work: &mut W,
) -> Result<Option<u8>, NoMemory>
    requires { IsDefined linked.now.world member.now }
    ensures found { IfOk result (IsChecked linked.now.world member.now) }
    ensures counted { ChecksOne result (W.meter work.old) (W.meter work.new) }
{
    match definition_of(linked.world(), member) {
        Some(definition) => check_definition(alloc, linked, member, definition, work),
        None => Ok(None),
    }
}

fn check_definition<W: Workers>(
    alloc: Global,
    linked: &LinkedWorld,
    member: &Member,
    definition: &MethodDef,
    work: &mut W,
) -> Result<Option<u8>, NoMemory>
    requires body { IsSome definition.now.body }
    ensures found { IfOk result (λ rule. MatchOption rule (IsTyped linked.now.world definition.now) (FailsFirst linked.now.world definition.now)) }
    ensures counted { ChecksOne result (W.meter work.old) (W.meter work.new) }
{
    let mut recorder = Recorder::new(alloc, member.copied()?, WorldOracle::new(linked, member));
    match work.check_method(alloc, definition, &mut recorder) {
        Ok(()) => Ok(None),
        Err(TypeError::Refused { rule, .. }) => Ok(Some(rule)),
        Err(TypeError::NoMemory) => Err(NoMemory),
    }
}

/// The definition of the member, if it has one. It takes no memory.
pub fn definition_of<'w>(world: &'w World, member: &Member) -> Option<&'w MethodDef>
    ensures { MatchOption result (HasNoMethod world.now member.now) (λ d. IsMethodOf world.now member.now d.now) }
{
    match world.class(&member.class) {
        Some(class) => method_in(class.methods.as_slice(), member),
        None => None,
    }
}
