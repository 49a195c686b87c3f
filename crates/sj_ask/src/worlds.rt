// The oracle of a world.
ghost use Rattle.std.specs.Prelude.{◌≡◌, IfOk, None};
ghost use Rattle.sj_ask.specs.Stands.{stand_of};
ghost use Rattle.sj_ask.specs.Answers as answers;
ghost use Rattle.sj_ask.specs.Answers.{IsFieldAnswer, IsTarget, IsSingleAnswer, IsBodyAnswer};

use crate::hijacked::has_hijacked;
use crate::targets::{field_of, only_target_of, small_body_of, target_of};
use crate::{Answer, Oracle, Question};
use sj_names::{ClassName, FieldName, Member, MethodName, Namespace, NoMemory};
use sj_trees::{FieldDef, MethodDef};
use sj_world::{LinkedWorld, World};
use std::alloc::Global;

/// The oracle that answers by a world for a member. It tells no list of what it answered.
#[derive(Drop)]
pub struct WorldOracle<'w> {
    world: &'w LinkedWorld,
    member: &'w Member,
}

impl<'w> WorldOracle<'w> {
    /// The oracle that answers by the world `w` for the member `k`. It takes no memory.
    pub fn new(w: &'w LinkedWorld, k: &'w Member) -> WorldOracle<'w>
        ensures { ⟦<WorldOracle<'w> as Oracle>⟧.stand result ≡ stand_of w.now k.now }
    {
        WorldOracle {
            world: w,
            member: k,
        }
    }
}

impl<'w> Oracle for WorldOracle<'w> {
    ghost stand = { λ o. stand_of o.world.now o.member.now };

    ghost told = { λ _. None };

    fn answer(&mut self, _alloc: Global, question: &Question) -> Result<Answer, NoMemory> {
        let world = self.world.world();
        match question {
            Question::IsSub(sub, above) => Ok(Answer::Yes(world.is_sub(sub, above))),
            Question::Field(class, name, is_static) => Ok(Answer::Field(field_answer(
                world, class, name, *is_static,
            )?)),
            Question::Resolve(class, method) => Ok(Answer::Member(resolve_answer(
                world, class, method,
            )?)),
            Question::Single(class, method) => Ok(Answer::Member(single_answer(
                self.world, class, method,
            )?)),
            Question::HasHijacked(class) => Ok(Answer::Yes(has_hijacked(world, class))),
            Question::Body(member) => Ok(Answer::Body(body_answer(
                self.world,
                self.member,
                member,
            )?)),
        }
    }
}

fn field_answer(
    world: &World,
    class: &ClassName,
    name: &FieldName,
    is_static: bool,
) -> Result<Option<FieldDef>, NoMemory>
    ensures { IfOk result (IsFieldAnswer world.now class.now name.now is_static) }
{
    match field_of(world, class, name, is_static) {
        Some(field) => Ok(Some(field.copied()?)),
        None => Ok(None),
    }
}

fn resolve_answer(
    world: &World,
    class: &ClassName,
    method: &MethodName,
) -> Result<Option<Member>, NoMemory>
    ensures { IfOk result (IsTarget world.now class.now method.now) }
{
    match target_of(world, class, method) {
        Some(owner) => Ok(Some(public_member(owner, method)?)),
        None => Ok(None),
    }
}

fn single_answer(
    world: &LinkedWorld,
    class: &ClassName,
    method: &MethodName,
) -> Result<Option<Member>, NoMemory>
    ensures { IfOk result (IsSingleAnswer world.now.world world.now.facts class.now method.now) }
{
    match only_target_of(world, class, method) {
        Some(owner) => Ok(Some(public_member(owner, method)?)),
        None => Ok(None),
    }
}

fn public_member(owner: &ClassName, method: &MethodName) -> Result<Member, NoMemory>
    ensures { IfOk result (λ k. k ≡ answers.public_member owner.now method.now) }
{
    Ok(Member {
        class: owner.copied()?,
        namespace: Namespace::Public,
        method: method.copied()?,
    })
}

fn body_answer(
    world: &LinkedWorld,
    k: &Member,
    member: &Member,
) -> Result<Option<MethodDef>, NoMemory>
    ensures { IfOk result (IsBodyAnswer (stand_of world.now k.now) member.now) }
{
    match small_body_of(world, k, member) {
        Some(method) => Ok(Some(method.copied()?)),
        None => Ok(None),
    }
}
