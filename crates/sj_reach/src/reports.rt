// What is told of references that don't resolve.
ghost use Rattle.std.specs.Prelude.{◌≡◌, ◌++◌, IfOk, OnOk, codes, string_bytes};
ghost use Rattle.sj_reach_spec.specs.Refusals as refusals;
ghost use Rattle.sj_reach.specs.Conclusions.{Adds, Just, tells};

use crate::findings::Findings;
use sj_names::{ClassName, FieldName, Member, Namespace, NoMemory, Text};
use std::alloc::Global;

impl Findings {
    /// No class has this name.
    pub fn tell_missing_class(&mut self, alloc: Global, class: &ClassName) -> Result<(), NoMemory>
        ensures { OnOk result (Adds (Just (tells (refusals.missing_class class.now))) self.old self.new) }
    {
        let place = Text::from_str(alloc, class.text())?;
        self.tell(12, place)
    }

    /// The class of the member doesn't define it.
    pub fn tell_missing_method(&mut self, alloc: Global, member: &Member) -> Result<(), NoMemory>
        ensures { OnOk result (Adds (Just (tells (refusals.missing_method member.now))) self.old self.new) }
    {
        let place = spelled_member(alloc, member)?;
        self.tell(13, place)
    }

    /// The class has no such field.
    pub fn tell_missing_field(
        &mut self,
        alloc: Global,
        class: &ClassName,
        field: &FieldName,
    ) -> Result<(), NoMemory>
        ensures { OnOk result (Adds (Just (tells (refusals.missing_field class.now field.now))) self.old self.new) }
    {
        let place = spelled_field(alloc, class, field)?;
        self.tell(14, place)
    }

    /// The class of this name is of another kind.
    pub fn tell_wrong_kind(&mut self, alloc: Global, class: &ClassName) -> Result<(), NoMemory>
        ensures { OnOk result (Adds (Just (tells (refusals.wrong_kind class.now))) self.old self.new) }
    {
        let place = Text::from_str(alloc, class.text())?;
        self.tell(15, place)
    }

    /// The member has no body.
    pub fn tell_abstract_target(&mut self, alloc: Global, member: &Member) -> Result<(), NoMemory>
        ensures { OnOk result (Adds (Just (tells (refusals.abstract_target member.now))) self.old self.new) }
    {
        let place = spelled_member(alloc, member)?;
        self.tell(16, place)
    }
}

/// A member as reports spell it, as `Main::s:main;V`. `NoMemory` alone is an error.
pub fn spelled_member(alloc: Global, member: &Member) -> Result<Text, NoMemory>
    ensures { IfOk result (λ text. text ≡ refusals.spelled_member member.now) }
{
    let method = member.method.spelled(alloc)?;
    let mut text = String::new(alloc);
    push_class(&mut text, &member.class, word_of(member.namespace))?;
    push(&mut text, method.as_str())?;
    Ok(Text::from_string(text)?)
}

fn push_class(text: &mut String, class: &ClassName, word: &str) -> Result<(), NoMemory>
    ensures { OnOk result (string_bytes text.new ≡ string_bytes text.old ++ class.now ++ codes "::" ++ word.now ++ codes ":") }
{
    push(text, class.text())?;
    push(text, "::")?;
    push(text, word)?;
    push(text, ":")
}

// A field as reports spell it.
fn spelled_field(alloc: Global, class: &ClassName, field: &FieldName) -> Result<Text, NoMemory>
    ensures { IfOk result (λ text. text ≡ class.now ++ codes "::x:" ++ field.now) }
{
    let mut text = String::new(alloc);
    push(&mut text, class.text())?;
    push(&mut text, "::x:")?;
    push(&mut text, field.text())?;
    Ok(Text::from_string(text)?)
}

fn push(text: &mut String, part: &str) -> Result<(), NoMemory>
    ensures { OnOk result (string_bytes text.new ≡ string_bytes text.old ++ part.now) }
{
    text.push_str(part)?;
    Ok(())
}

fn word_of(namespace: Namespace) -> &'static str
    ensures { result.now ≡ refusals.namespace_word namespace }
{
    match namespace {
        Namespace::Public => "f",
        Namespace::PublicStatic => "s",
        Namespace::Private => "p",
        Namespace::PrivateStatic => "ps",
        Namespace::Constructor => "ct",
    }
}
