// Names of methods, and members of classes.
ghost use Rattle.std.specs.Prelude.{◌≡◌, ◌↔◌, ◌++◌, ◌∷◌, IfOk, OnOk, IsTrue, string_bytes, Some, None, is_some};
ghost use Rattle.sj_names.specs.MethodNames as method_names;

use crate::cuts::first_part;
use crate::naming::is_simple_name;
use crate::references::{is_reference, push};
use crate::{ClassName, NameError, NoMemory, Shared, SimpleName, Text, TypeRef};
use std::alloc::Global;

/// A method name: its simple name, the references of its parameters and of its result. A reflective proxy has no result.
#[derive(Drop, PartialEq, Eq, PartialOrd, Ord, Hash)]
pub struct MethodName {
    pub simple: SimpleName,
    pub params: Shared<TypeRef>,
    pub result: Option<TypeRef>,
}

/// Where a method of a class stands.
#[derive(Clone, Copy, Debug, PartialEq, Eq, PartialOrd, Ord, Hash)]
pub enum Namespace {
    Public,
    PublicStatic,
    Private,
    PrivateStatic,
    Constructor,
}

/// A method of a class.
#[derive(Drop, PartialEq, Eq, PartialOrd, Ord, Hash)]
pub struct Member {
    pub class: ClassName,
    pub namespace: Namespace,
    pub method: MethodName,
}

impl MethodName {
    /// The method name that `text` spells: `name;P1;..;Pn;R`, in which no parameter is `V`, and of a reflective proxy the last
    /// part is the letter `R` alone. `BadName` exactly where it spells none.
    pub fn parse(alloc: Global, text: &str) -> Result<MethodName, NameError>
        ensures found { IfOk result (λ m. method_names.method_name_of text.now ≡ Some m) }
        ensures bad { result ≡ Err NameError.BadName ↔ (method_names.method_name_of text.now ≡ None) }
    {
        if !is_method_name(text) {
            return Err(NameError::BadName);
        }
        let Some((simple, rest)) = first_part(text) else {
            return Err(NameError::BadName);
        };
        let simple = SimpleName::parse(alloc, simple)?;
        let (params, result_reference) = parse_signature(alloc, rest)?;
        Ok(MethodName {
            simple,
            params,
            result: result_reference,
        })
    }

    /// The spelling of the name.
    pub fn spelled(&self, alloc: Global) -> Result<Text, NoMemory>
        ensures { IfOk result (λ text. text ≡ method_names.spelled_method self.now) }
    {
        let mut text = String::new(alloc);
        push(&mut text, self.simple.text())?;
        push_parameters(&mut text, self.params.as_slice())?;
        push_result(&mut text, &self.result)?;
        Ok(Text::from_string(text)?)
    }

    /// The same name once more, which shares its texts and its parameters.
    pub fn copied(&self) -> Result<MethodName, NoMemory>
        ensures { IfOk result (λ m. m ≡ self.now) }
    {
        Ok(MethodName {
            simple: self.simple.copied()?,
            params: self.params.copied()?,
            result: copied_result(&self.result)?,
        })
    }

    /// Whether both are the same name.
    pub fn is_same(&self, other: &MethodName) -> bool
        ensures { IsTrue result ↔ (self.now ≡ other.now) }
    {
        self.simple.is_same(&other.simple)
            && are_same_references(self.params.as_slice(), other.params.as_slice())
            && is_same_result(&self.result, &other.result)
    }
}

impl Member {
    /// The same member once more, which shares its names.
    pub fn copied(&self) -> Result<Member, NoMemory>
        ensures { IfOk result (λ m. m ≡ self.now) }
    {
        Ok(Member {
            class: self.class.copied()?,
            namespace: self.namespace,
            method: self.method.copied()?,
        })
    }

    /// Whether both are the same member.
    pub fn is_same(&self, other: &Member) -> bool
        ensures { IsTrue result ↔ (self.now ≡ other.now) }
    {
        self.namespace == other.namespace
            && self.class.is_same(&other.class)
            && self.method.is_same(&other.method)
    }
}

// Writes a `;` and the spelling of each parameter behind `text`.
fn push_parameters(text: &mut String, parameters: &[TypeRef]) -> Result<(), NoMemory>
    ensures { OnOk result (string_bytes text.new ≡ string_bytes text.old ++ method_names.spelled_parameters parameters.now) }
{
    for parameter in parameters {
        push(text, ";")?;
        parameter.push_spelled(text)?;
    }
    Ok(())
}

// Writes a `;` and the spelling of the result behind `text`.
fn push_result(text: &mut String, result_reference: &Option<TypeRef>) -> Result<(), NoMemory>
    ensures { OnOk result (string_bytes text.new ≡ string_bytes text.old ++ (0x3b ∷ method_names.spelled_result result_reference.now)) }
{
    push(text, ";")?;
    match result_reference {
        Some(reference) => reference.push_spelled(text),
        None => push(text, "R"),
    }
}

/// Whether `text` spells a method name.
pub fn is_method_name(text: &str) -> bool
    ensures { result ≡ is_some (method_names.method_name_of text.now) }
{
    match first_part(text) {
        Some((simple, signature)) => is_simple_name(simple) && is_signature(signature),
        None => false,
    }
}

// Whether `text` spells parameters and a result.
fn is_signature(text: &str) -> bool
    ensures { result ≡ is_some (method_names.signature_of (method_names.parts text.now)) }
{
    let mut rest = text;
    while let Some((parameter, behind)) = first_part(rest) {
        if !is_parameter(parameter) {
            return false;
        }
        rest = behind;
    }
    is_result(rest)
}

// Whether `text` spells a parameter.
fn is_parameter(text: &str) -> bool
    ensures { result ≡ is_some (method_names.parameter_of text.now) }
{
    text != "V" && is_reference(text)
}

// Whether `text` spells a result.
fn is_result(text: &str) -> bool
    ensures { result ≡ is_some (method_names.result_of text.now) }
{
    text == "R" || is_reference(text)
}

// The parameters and the result that `text` spells.
fn parse_signature(
    alloc: Global,
    text: &str,
) -> Result<(Shared<TypeRef>, Option<TypeRef>), NameError>
    ensures found { IfOk result (λ x. method_names.signature_of (method_names.parts text.now) ≡ Some x) }
    ensures bad { result ≡ Err NameError.BadName → method_names.signature_of (method_names.parts text.now) ≡ None }
{
    let mut params = Vec::new(alloc);
    let mut rest = text;
    while let Some((parameter, behind)) = first_part(rest) {
        params.push(parse_parameter(alloc, parameter)?)?;
        rest = behind;
    }
    let result_reference = parse_result(alloc, rest)?;
    Ok((Shared::from_vec(params)?, result_reference))
}

// The parameter that `text` spells.
fn parse_parameter(alloc: Global, text: &str) -> Result<TypeRef, NameError>
    ensures found { IfOk result (λ r. method_names.parameter_of text.now ≡ Some r) }
    ensures bad { result ≡ Err NameError.BadName → method_names.parameter_of text.now ≡ None }
{
    if text == "V" {
        return Err(NameError::BadName);
    }
    TypeRef::parse(alloc, text)
}

// The result that `text` spells.
fn parse_result(alloc: Global, text: &str) -> Result<Option<TypeRef>, NameError>
    ensures found { IfOk result (λ r. method_names.result_of text.now ≡ Some r) }
    ensures bad { result ≡ Err NameError.BadName → method_names.result_of text.now ≡ None }
{
    if text == "R" {
        return Ok(None);
    }
    Ok(Some(TypeRef::parse(alloc, text)?))
}

fn copied_result(result_reference: &Option<TypeRef>) -> Result<Option<TypeRef>, NoMemory>
    ensures { IfOk result (λ r. r ≡ result_reference.now) }
{
    match result_reference {
        Some(reference) => Ok(Some(reference.copied()?)),
        None => Ok(None),
    }
}

fn are_same_references(ones: &[TypeRef], others: &[TypeRef]) -> bool
    ensures { IsTrue result ↔ (ones.now ≡ others.now) }
{
    if ones.len() != others.len() {
        return false;
    }
    for i in 0..ones.len() {
        if !ones[i].is_same(&others[i]) {
            return false;
        }
    }
    true
}

fn is_same_result(one: &Option<TypeRef>, other: &Option<TypeRef>) -> bool
    ensures { IsTrue result ↔ (one.now ≡ other.now) }
{
    match (one, other) {
        (None, None) => true,
        (Some(one), Some(other)) => one.is_same(other),
        _ => false,
    }
}
