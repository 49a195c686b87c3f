// What the check of a method's types found and asked.
ghost use Rattle.std.specs.Prelude.{◌≡◌};
ghost use Rattle.judging_vectors.specs.Namespaces.{namespace_named};

use crate::texts::{self, add, mark};
use crate::types::add_type;
use sj_ask::{Answer, Log, Question, TypeError, WorldOracle, still_holds};
use sj_names::{ClassName, Member, Meter, MethodName, NameError, Namespace};
use sj_recorder::Recorder;
use sj_trees::{FieldDef, IrType, MethodDef};
use sj_typing::check_method;
use sj_world::{LinkedWorld, method_in};
use std::alloc::Global;

/// Adds the answer to `check`: `ok` or the rule and the place, and a line for each question that was asked, in order, `ask sub TYPE TYPE ANSWER`
/// or `ask field CLASS NAME STATIC FIELD`.
pub(crate) fn add_answer(
    alloc: Global,
    world: &LinkedWorld,
    spelling: &str,
    text: &mut String,
) -> Result<(), NameError> {
    let member = member_of(alloc, spelling)?;
    match method_of(world, &member) {
        Some(method) => add_check(alloc, world, &member, method, text),
        None => add(&["no method\n"], text),
    }
}

// The member of a spelling: its class, a word for its namespace, and its name.
fn member_of(alloc: Global, spelling: &str) -> Result<Member, NameError> {
    let (class, rest) = spelling.split_once("::").ok_or(NameError::BadName)?;
    let (word, method) = rest.split_once(':').ok_or(NameError::BadName)?;
    Ok(Member {
        class: ClassName::parse(alloc, class)?,
        namespace: namespace_of(word),
        method: MethodName::parse(alloc, method)?,
    })
}

/// The namespace that a word of a member's spelling stands for.
pub fn namespace_of(word: &str) -> Namespace
    ensures { result ≡ namespace_named word.now }
{
    match word {
        "s" => Namespace::PublicStatic,
        "p" => Namespace::Private,
        "ps" => Namespace::PrivateStatic,
        "ct" => Namespace::Constructor,
        _ => Namespace::Public,
    }
}

fn method_of<'w>(world: &'w LinkedWorld, member: &Member) -> Option<&'w MethodDef> {
    let class = world.world().class(&member.class)?;
    method_in(class.methods.as_slice(), member)
}

fn add_check(
    alloc: Global,
    world: &LinkedWorld,
    member: &Member,
    method: &MethodDef,
    text: &mut String,
) -> Result<(), NameError> {
    if method.body.is_none() {
        return add(&["no body\n"], text);
    }
    let oracle = WorldOracle::new(world, member);
    let mut recorder = Recorder::new(alloc, member.copied()?, oracle);
    let verdict = check_method(alloc, method, &mut recorder, &mut Meter::new());
    add_found(alloc, world, verdict, &recorder.into_log(), text)
}

fn add_found(
    alloc: Global,
    world: &LinkedWorld,
    verdict: Result<(), TypeError>,
    log: &Log,
    text: &mut String,
) -> Result<(), NameError> {
    add_verdict(alloc, verdict, text)?;
    add_asked(alloc, log.asked.as_slice(), text)?;
    if still_holds(log, world) {
        Ok(())
    } else {
        add(&["the log does not hold\n"], text)
    }
}

fn add_verdict(
    alloc: Global,
    verdict: Result<(), TypeError>,
    text: &mut String,
) -> Result<(), NameError> {
    match verdict {
        Ok(()) => add(&["ok\n"], text),
        Err(TypeError::Refused { rule, place }) => {
            let refusal = format!(in alloc; "{rule}\t{place}\n")?;
            add(&[refusal.as_str()], text)
        }
        Err(TypeError::NoMemory) => add(&["no memory\n"], text),
    }
}

fn add_asked(
    alloc: Global,
    asked: &[(Question, Answer)],
    text: &mut String,
) -> Result<(), NameError> {
    for one in asked {
        add_exchange(alloc, &one.0, &one.1, text)?;
    }
    Ok(())
}

fn add_exchange(
    alloc: Global,
    question: &Question,
    answer: &Answer,
    text: &mut String,
) -> Result<(), NameError> {
    match (question, answer) {
        (Question::IsSub(sub, above), Answer::Yes(yes)) => {
            add_subtype(alloc, sub, above, *yes, text)
        }
        (Question::Field(class, name, is_static), Answer::Field(found)) => {
            add(&["ask\tfield\t"], text)?;
            texts::add_field(class, name, *is_static, text)?;
            add_field(alloc, found, text)
        }
        _ => add(&["another question\n"], text),
    }
}

fn add_subtype(
    alloc: Global,
    sub: &IrType,
    above: &IrType,
    yes: bool,
    text: &mut String,
) -> Result<(), NameError> {
    add(&["ask\tsub\t"], text)?;
    add_type(alloc, sub, text)?;
    add(&["\t"], text)?;
    add_type(alloc, above, text)?;
    add(&[if yes { "\tyes\n" } else { "\tno\n" }], text)
}

fn add_field(alloc: Global, found: &Option<FieldDef>, text: &mut String) -> Result<(), NameError> {
    match found {
        Some(field) => {
            add_marks(field.is_static, field.mutable, text)?;
            add(&[" \"", field.name.text(), "\" "], text)?;
            add_type(alloc, &field.tpe, text)?;
            add(&[")\n"], text)
        }
        None => add(&["\tnone\n"], text),
    }
}

fn add_marks(is_static: bool, mutable: bool, text: &mut String) -> Result<(), NameError> {
    add(&["\t(field ", mark(is_static), " ", mark(mutable)], text)
}
