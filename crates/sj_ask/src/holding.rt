// Whether what was answered would be answered now.
ghost use Rattle.std.specs.Prelude.{◌≡◌, ◌↔◌, IsTrue, Some, option_map};
ghost use Rattle.sj_ask.specs.declared.questions.Answer.TheVariants as answer_of;
ghost use Rattle.tree_sameness.specs.Apart.{field_apart, method_apart};
ghost use Rattle.sj_ask.specs.Stands.{stand_of};
ghost use Rattle.sj_ask.specs.Answers as answers;
ghost use Rattle.sj_ask.specs.Answers.{IsAnswer, GivesField, GivesMember, GivesBody, IsFieldAnswer, IsTarget, IsSingleAnswer, IsBodyAnswer};
ghost use Rattle.sj_ask.specs.Laws.{HoldsIn};

use crate::hijacked::has_hijacked;
use crate::targets::{field_of, only_target_of, small_body_of, target_of};
use crate::{Answer, Log, Question};
use sj_names::{ClassName, FieldName, Member, MethodName, Namespace};
use sj_trees::{FieldDef, MethodDef};
use sj_world::{LinkedWorld, World};
use tree_sameness::{is_same_field, is_same_method};

/// Whether each question of the log has its logged answer now, in the world `w` for the member of the log, apart from positions. It takes
/// no memory.
pub fn still_holds(log: &Log, w: &LinkedWorld) -> bool
    ensures { IsTrue result ↔ HoldsIn (stand_of w.now log.now.member) log.now.asked }
{
    hold_all(w, &log.member, log.asked.as_slice())
}

fn hold_all(world: &LinkedWorld, k: &Member, log: &[(Question, Answer)]) -> bool
    ensures { IsTrue result ↔ HoldsIn (stand_of world.now k.now) log.now }
{
    for asked in log {
        if !is_answer(world, k, &asked.0, &asked.1) {
            return false;
        }
    }
    true
}

fn is_answer(world: &LinkedWorld, k: &Member, question: &Question, answer: &Answer) -> bool
    ensures { IsTrue result ↔ IsAnswer (stand_of world.now k.now) question.now answer.now }
{
    match question {
        Question::IsSub(sub, above) => says(world.world().is_sub(sub, above), answer),
        Question::Field(class, name, is_static) => {
            gives_field(world.world(), class, name, *is_static, answer)
        }
        Question::Resolve(class, method) => gives_target(world.world(), class, method, answer),
        Question::Single(class, method) => gives_single(world, class, method, answer),
        Question::HasHijacked(class) => says(has_hijacked(world.world(), class), answer),
        Question::Body(member) => gives_body(world, k, member, answer),
    }
}

fn says(yes: bool, answer: &Answer) -> bool
    ensures { IsTrue result ↔ (answer.now ≡ answer_of.Yes yes) }
{
    match answer {
        Answer::Yes(said) => *said == yes,
        _ => false,
    }
}

fn gives_field(
    world: &World,
    class: &ClassName,
    name: &FieldName,
    is_static: bool,
    answer: &Answer,
) -> bool
    ensures { IsTrue result ↔ GivesField (IsFieldAnswer world.now class.now name.now is_static) answer.now }
{
    match answer {
        Answer::Field(found) => is_field_answer(world, class, name, is_static, found),
        _ => false,
    }
}

fn gives_target(world: &World, class: &ClassName, method: &MethodName, answer: &Answer) -> bool
    ensures { IsTrue result ↔ GivesMember (IsTarget world.now class.now method.now) answer.now }
{
    match answer {
        Answer::Member(found) => is_target(world, class, method, found),
        _ => false,
    }
}

fn gives_single(
    world: &LinkedWorld,
    class: &ClassName,
    method: &MethodName,
    answer: &Answer,
) -> bool
    ensures { IsTrue result ↔ GivesMember (IsSingleAnswer world.now.world world.now.facts class.now method.now) answer.now }
{
    match answer {
        Answer::Member(found) => is_single_answer(world, class, method, found),
        _ => false,
    }
}

fn gives_body(world: &LinkedWorld, k: &Member, member: &Member, answer: &Answer) -> bool
    ensures { IsTrue result ↔ GivesBody (IsBodyAnswer (stand_of world.now k.now) member.now) answer.now }
{
    match answer {
        Answer::Body(found) => is_body_answer(world, k, member, found),
        _ => false,
    }
}

fn is_field_answer(
    world: &World,
    class: &ClassName,
    name: &FieldName,
    is_static: bool,
    found: &Option<FieldDef>,
) -> bool
    ensures { IsTrue result ↔ IsFieldAnswer world.now class.now name.now is_static found.now }
{
    match field_of(world, class, name, is_static) {
        Some(field) => is_that_field(found, field),
        None => found.is_none(),
    }
}

fn is_that_field(found: &Option<FieldDef>, field: &FieldDef) -> bool
    ensures { IsTrue result ↔ (option_map field_apart found.now ≡ Some (field_apart field.now)) }
{
    match found {
        Some(found) => is_same_field(found, field),
        None => false,
    }
}

fn is_target(world: &World, class: &ClassName, method: &MethodName, found: &Option<Member>) -> bool
    ensures { IsTrue result ↔ IsTarget world.now class.now method.now found.now }
{
    match target_of(world, class, method) {
        Some(owner) => is_public_member(found, owner, method),
        None => found.is_none(),
    }
}

fn is_single_answer(
    world: &LinkedWorld,
    class: &ClassName,
    method: &MethodName,
    found: &Option<Member>,
) -> bool
    ensures { IsTrue result ↔ IsSingleAnswer world.now.world world.now.facts class.now method.now found.now }
{
    match only_target_of(world, class, method) {
        Some(owner) => is_public_member(found, owner, method),
        None => found.is_none(),
    }
}

fn is_public_member(found: &Option<Member>, owner: &ClassName, method: &MethodName) -> bool
    ensures { IsTrue result ↔ (found.now ≡ Some (answers.public_member owner.now method.now)) }
{
    match found {
        Some(member) => is_member(member, owner, method),
        None => false,
    }
}

fn is_member(member: &Member, owner: &ClassName, method: &MethodName) -> bool
    ensures { IsTrue result ↔ (member.now ≡ answers.public_member owner.now method.now) }
{
    member.namespace == Namespace::Public
        && member.class.is_same(owner)
        && member.method.is_same(method)
}

fn is_body_answer(
    world: &LinkedWorld,
    k: &Member,
    member: &Member,
    found: &Option<MethodDef>,
) -> bool
    ensures { IsTrue result ↔ IsBodyAnswer (stand_of world.now k.now) member.now found.now }
{
    match small_body_of(world, k, member) {
        Some(method) => is_that_method(found, method),
        None => found.is_none(),
    }
}

fn is_that_method(found: &Option<MethodDef>, method: &MethodDef) -> bool
    ensures { IsTrue result ↔ (option_map method_apart found.now ≡ Some (method_apart method.now)) }
{
    match found {
        Some(found) => is_same_method(found, method),
        None => false,
    }
}
