// What follows from what a body asks for.
ghost use Rattle.std.specs.Prelude.{◌≡◌, ◌⊎◌, OnOk, IfOk};
ghost use Rattle.sj_names.specs.WellKnown.{hijacked as the_hijacked, object};
ghost use Rattle.sj_reach_spec.specs.Refusals.{LacksField, missing_field};
ghost use Rattle.sj_reach.specs.Conclusions.{Adds, Just, Among, follows, tells};
ghost use Rattle.sj_reach.specs.Steps as steps;

use crate::asked::ask_for;
use crate::calls::{call_on_receiver, resolve_from};
use crate::findings::Findings;
use crate::members::{constructor_member, message_constructor, plain_constructor};
use crate::needed::need_of_kind;
use crate::reflected::{reflect_on_each, reflect_on_hijacked};
use crate::seen::Seen;
use sj_infos::Info;
use sj_names::{ClassName, FieldName, Member, MethodName, NoMemory, OBJECT, Text};
use sj_trees::ClassKind;
use sj_world::{Fact, World, field_in};
use std::alloc::Global;

/// A body asks for this.
pub fn go_through_info(
    alloc: Global,
    world: &World,
    info: &Info,
    seen: &Seen,
    hijacked: &[ClassName],
    found: &mut Findings,
) -> Result<(), NoMemory>
    requires { hijacked.now ≡ the_hijacked }
    ensures { OnOk result (Adds (steps.OfSeenInfo world.now seen.now info.now) found.old found.new) }
{
    match info {
        Info::New(class, method) => construct(alloc, world, class, method, found),
        Info::Load(class) => load(alloc, world, class, found),
        Info::Field(class, field, is_static) => {
            use_field(alloc, world, class, field, *is_static, found)
        }
        Info::Static(member) => call_member(alloc, world, member, found),
        Info::Resolved(class, method) => call_resolved(alloc, world, class, method, found),
        Info::Called(class, method) => call(alloc, world, class, method, found),
        Info::Reflective(proxy) => reflect(alloc, world, proxy, seen, hijacked, found),
        Info::Class(class) => found.add_needed(class),
        Info::ArrayForm => make_object(alloc, found),
        Info::Throws(class) => throw(alloc, world, class, found),
    }
}

// Instances of the class are made, which is to be of this kind.
fn make(
    alloc: Global,
    world: &World,
    class: &ClassName,
    kind: ClassKind,
    found: &mut Findings,
) -> Result<(), NoMemory>
    ensures { OnOk result (Adds (steps.OfMaking world.now kind class.now) found.old found.new) }
{
    need_of_kind(alloc, world, class, kind, found)?;
    found.add_made(class)
}

fn construct(
    alloc: Global,
    world: &World,
    class: &ClassName,
    method: &MethodName,
    found: &mut Findings,
) -> Result<(), NoMemory>
    ensures { OnOk result (Adds (steps.OfInfo world.now (Info.New class.now method.now)) found.old found.new) }
{
    make(alloc, world, class, ClassKind::Class, found)?;
    let constructor = constructor_member(class, method)?;
    ask_for(alloc, world, constructor, found)
}

fn load(
    alloc: Global,
    world: &World,
    class: &ClassName,
    found: &mut Findings,
) -> Result<(), NoMemory>
    ensures { OnOk result (Adds (steps.OfInfo world.now (Info.Load class.now)) found.old found.new) }
{
    make(alloc, world, class, ClassKind::ModuleClass, found)?;
    found.add_cell(class)?;
    let constructor = plain_constructor(alloc, class)?;
    ask_for(alloc, world, constructor, found)
}

fn throw(
    alloc: Global,
    world: &World,
    class: &ClassName,
    found: &mut Findings,
) -> Result<(), NoMemory>
    ensures { OnOk result (Adds (steps.OfInfo world.now (Info.Throws class.now)) found.old found.new) }
{
    make(alloc, world, class, ClassKind::Class, found)?;
    let constructor = message_constructor(alloc, class)?;
    ask_for(alloc, world, constructor, found)
}

fn use_field(
    alloc: Global,
    world: &World,
    class: &ClassName,
    field: &FieldName,
    is_static: bool,
    found: &mut Findings,
) -> Result<(), NoMemory>
    ensures { OnOk result (Adds (steps.OfField world.now class.now field.now is_static) found.old found.new) }
{
    found.add_needed(class)?;
    found.add_field(class, field, is_static)?;
    expect_field(alloc, world, class, field, is_static, found)
}

fn expect_field(
    alloc: Global,
    world: &World,
    class: &ClassName,
    field: &FieldName,
    is_static: bool,
    found: &mut Findings,
) -> Result<(), NoMemory>
    ensures { OnOk result (Adds (λ x. LacksField world.now class.now field.now is_static × Just (tells (missing_field class.now field.now)) x) found.old found.new) }
{
    let Some(there) = world.class(class) else {
        return Ok(());
    };
    match field_in(there.fields.as_slice(), field, is_static) {
        Some(_) => Ok(()),
        None => found.tell_missing_field(alloc, class, field),
    }
}

fn call_member(
    alloc: Global,
    world: &World,
    member: &Member,
    found: &mut Findings,
) -> Result<(), NoMemory>
    ensures { OnOk result (Adds (steps.OfInfo world.now (Info.Static member.now)) found.old found.new) }
{
    found.add_needed(&member.class)?;
    let member = member.copied()?;
    ask_for(alloc, world, member, found)
}

fn call_resolved(
    alloc: Global,
    world: &World,
    class: &ClassName,
    method: &MethodName,
    found: &mut Findings,
) -> Result<(), NoMemory>
    ensures { OnOk result (Adds (steps.OfInfo world.now (Info.Resolved class.now method.now)) found.old found.new) }
{
    found.add_needed(class)?;
    resolve_from(alloc, world, class, method, found)
}

fn call(
    alloc: Global,
    world: &World,
    class: &ClassName,
    method: &MethodName,
    found: &mut Findings,
) -> Result<(), NoMemory>
    ensures { OnOk result (Adds (steps.OfInfo world.now (Info.Called class.now method.now)) found.old found.new) }
{
    found.add_needed(class)?;
    call_on_receiver(alloc, world, class, method, found)
}

// A reflective call. Where it was seen before, what it reaches is found.
fn reflect(
    alloc: Global,
    world: &World,
    proxy: &MethodName,
    seen: &Seen,
    hijacked: &[ClassName],
    found: &mut Findings,
) -> Result<(), NoMemory>
    requires { hijacked.now ≡ the_hijacked }
    ensures { OnOk result (Adds (steps.IfNew world.now seen.now proxy.now) found.old found.new) }
{
    if seen.reflective.contains(proxy) {
        Ok(())
    } else {
        reflect_anew(alloc, world, proxy, seen, hijacked, found)
    }
}

fn reflect_anew(
    alloc: Global,
    world: &World,
    proxy: &MethodName,
    seen: &Seen,
    hijacked: &[ClassName],
    found: &mut Findings,
) -> Result<(), NoMemory>
    requires { hijacked.now ≡ the_hijacked }
    ensures { OnOk result (Adds (λ x. Among seen.now.made.items (steps.OfProxy world.now proxy.now) x ⊎ steps.OfReflective world.now proxy.now x) found.old found.new) }
{
    reflect_on_each(alloc, world, seen.made.as_slice(), proxy, found)?;
    reflect_on_hijacked(alloc, world, hijacked, proxy, found)
}

// For arrays instances of `java.lang.Object` are made.
fn make_object(alloc: Global, found: &mut Findings) -> Result<(), NoMemory>
    ensures { OnOk result (Adds (Just (follows (Fact.Made object))) found.old found.new) }
{
    let name = object_name(alloc)?;
    found.add(Fact::Made(name))
}

/// The name of `java.lang.Object`.
pub fn object_name(alloc: Global) -> Result<ClassName, NoMemory>
    ensures { IfOk result (λ name. name ≡ object) }
{
    let text = Text::from_str(alloc, OBJECT)?;
    Ok(ClassName::of_text(text))
}
