// What questions look for in a world.
ghost use Rattle.std.specs.Prelude.{◌≡◌, ◌↔◌, MatchOption, IsTrue, option_map, Some};
ghost use Rattle.sj_ask.specs.Stands.{stand_of};
ghost use Rattle.sj_world.specs.Members.{IsFieldOf, HasNoField, IsMethodOf, HasNoMethod};
ghost use Rattle.sj_ask.specs.Answers.{IsTarget, public_member, EachRuns, IsOnlyTarget, HasNoOnlyTarget, HasSmallBody, IsSmallBody, HasNoSmallBody};

use crate::sizes::is_small;
use sj_names::{ClassName, FieldName, Member, MethodName};
use sj_trees::{FieldDef, MethodDef};
use sj_world::{LinkedWorld, Resolution, World, field_in, method_in};

/// The field of a class with this name and static mark.
pub fn field_of<'w>(
    world: &'w World,
    class: &ClassName,
    name: &FieldName,
    is_static: bool,
) -> Option<&'w FieldDef>
    ensures { MatchOption result (HasNoField world.now class.now name.now is_static) (λ f. IsFieldOf world.now class.now name.now is_static f.now) }
{
    match world.class(class) {
        Some(class) => field_in(class.fields.as_slice(), name, is_static),
        None => None,
    }
}

/// The definition of a member.
pub fn method_of<'w>(world: &'w World, member: &Member) -> Option<&'w MethodDef>
    ensures { MatchOption result (HasNoMethod world.now member.now) (λ d. IsMethodOf world.now member.now d.now) }
{
    match world.class(&member.class) {
        Some(class) => method_in(class.methods.as_slice(), member),
        None => None,
    }
}

/// The class of the body that a call of a public method runs on an instance of a class, if it runs one.
pub fn target_of<'w>(
    world: &'w World,
    class: &ClassName,
    method: &MethodName,
) -> Option<&'w ClassName>
    ensures { IsTarget world.now class.now method.now (option_map (λ owner. public_member owner.now method.now) result) }
{
    match world.resolve(class, method) {
        Resolution::Target(_, owner) => Some(owner),
        Resolution::Abstract | Resolution::Missing => None,
    }
}

/// The class of the one body to which a public method resolves in all classes below `class` of which instances are made.
pub fn only_target_of<'w>(
    world: &'w LinkedWorld,
    class: &ClassName,
    method: &MethodName,
) -> Option<&'w ClassName>
    ensures { MatchOption result (HasNoOnlyTarget world.now.world world.now.facts class.now method.now) (λ owner. IsOnlyTarget world.now.world world.now.facts class.now method.now (public_member owner.now method.now)) }
{
    let made = world.made_below(class);
    let first = made.first()?;
    let classes = world.world();
    let owner = target_of(classes, first, method)?;
    if run_all(classes, made, method, owner) {
        Some(owner)
    } else {
        None
    }
}

// Whether a call on an instance of each of these classes runs the body of the class `owner`.
fn run_all(world: &World, made: &[ClassName], method: &MethodName, owner: &ClassName) -> bool
    ensures { IsTrue result ↔ EachRuns world.now made.now method.now (public_member owner.now method.now) }
{
    for class in made {
        if !runs(world, class, method, owner) {
            return false;
        }
    }
    true
}

// Whether a call on an instance of a class runs the body of the class `owner`.
fn runs(world: &World, class: &ClassName, method: &MethodName, owner: &ClassName) -> bool
    ensures { IsTrue result ↔ IsTarget world.now class.now method.now (Some (public_member owner.now method.now)) }
{
    match target_of(world, class, method) {
        Some(found) => found.is_same(owner),
        None => false,
    }
}

/// The definition of a member, where it is a body that is needed, has at most 16 trees, and is another than `k`.
pub fn small_body_of<'w>(
    world: &'w LinkedWorld,
    k: &Member,
    member: &Member,
) -> Option<&'w MethodDef>
    ensures { MatchOption result (HasNoSmallBody (stand_of world.now k.now) member.now) (λ d. IsSmallBody (stand_of world.now k.now) member.now d.now) }
{
    match method_of(world.world(), member) {
        Some(method) => {
            if is_small_body(world, k, member, method) {
                Some(method)
            } else {
                None
            }
        }
        None => None,
    }
}

// Whether the definition of a member is a body that is needed, has at most 16 trees, and is another than that of `k`.
fn is_small_body(world: &LinkedWorld, k: &Member, member: &Member, method: &MethodDef) -> bool
    requires { IsMethodOf world.now.world member.now method.now }
    ensures { IsTrue result ↔ IsSmallBody (stand_of world.now k.now) member.now method.now }
{
    is_other(member, k) && has_small_body(method) && world.has_body(member)
}

fn is_other(member: &Member, k: &Member) -> bool
    ensures { IsTrue result ↔ (member.now ≡ k.now → ⊥) }
{
    !member.is_same(k)
}

fn has_small_body(method: &MethodDef) -> bool
    ensures { IsTrue result ↔ HasSmallBody method.now }
{
    match &method.body {
        Some(body) => is_small(body.tree()),
        None => false,
    }
}
