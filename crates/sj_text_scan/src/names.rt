// Names, references and method names, as string literals.
ghost use Rattle.std.specs.Prelude.{◌≡◌, [], ◌==◌, IfOk, IsTrue, string_bytes};
ghost use Rattle.std.specs.Char.{IsScalar};
ghost use Rattle.sj_names.specs.Grammar as grammar;
ghost use Rattle.text_scan.specs.Gives.{Gives};
ghost use Rattle.sj_text_spec.specs.Names as names;

use crate::escapes::character_of;
use crate::spots::moved;
use sj_names::{
    ArrayRef, ClassName, FieldName, LabelName, LocalName, MethodName, NameError, Text, TypeRef,
    is_class_name, is_plain_name,
};
use sj_text_spec::Spot;
use std::alloc::Global;
use text_scan::{Stop, literal, next_is};

const OBJECT: &str = "java.lang.Object";

/// The character of a code.
fn character_of_code(code: u32) -> char
    requires { IsScalar code }
    ensures { result ≡ code }
{
    char::from_u32(code).unwrap()
}

/// The characters up to the closing quote.
fn characters_of<'a>(
    alloc: Global,
    fuel: usize,
    start: Spot,
    bytes: &'a [u8],
) -> Result<(String, &'a [u8]), Stop>
    ensures { Gives (λ x. (string_bytes x.0, x.1.now)) result (names.characters_at fuel start [] bytes.now) }
{
    let mut name = String::new(alloc);
    let mut spot = start;
    let mut rest = bytes;
    for _ in 0..fuel {
        if next_is(b'"', rest) {
            return Ok((name, rest));
        }
        let (code, after) = character_of(spot, rest)?;
        name.push(character_of_code(code))?;
        spot = moved(spot, code);
        rest = after;
    }
    Err(Stop::Bad(rest.len()))
}

/// The characters up to the closing quote, as a text.
fn text_of<'a>(
    alloc: Global,
    fuel: usize,
    start: Spot,
    bytes: &'a [u8],
) -> Result<(Text, &'a [u8]), Stop>
    ensures { Gives (λ x. (x.0, x.1.now)) result (names.characters_at fuel start [] bytes.now) }
{
    let (name, rest) = characters_of(alloc, fuel, start, bytes)?;
    Ok((Text::from_string(name)?, rest))
}

/// The name of a field, a local or a label.
#[tactic(auto, unfolding(sj_text_spec::specs::Names::named_at))]
fn plain_text<'a>(alloc: Global, fuel: usize, bytes: &'a [u8]) -> Result<(Text, &'a [u8]), Stop>
    ensures gives { Gives (λ x. (x.0, x.1.now)) result (names.plain_name_at fuel bytes.now) }
    ensures plain { IfOk result (λ x. IsTrue (grammar.is_plain_name x.0)) }
{
    let (name, rest) = text_of(alloc, fuel, Spot::NameStart, literal(b"\"", bytes)?)?;
    if !is_plain_name(name.as_str()) {
        return Err(Stop::Bad(rest.len()));
    }
    let rest = literal(b"\"", rest)?;
    Ok((name, rest))
}

/// The name of a field.
pub fn field_name_of<'a>(
    alloc: Global,
    fuel: usize,
    bytes: &'a [u8],
) -> Result<(FieldName, &'a [u8]), Stop>
    ensures { Gives (λ x. (x.0, x.1.now)) result (names.plain_name_at fuel bytes.now) }
{
    let (name, rest) = plain_text(alloc, fuel, bytes)?;
    Ok((FieldName::of_text(name), rest))
}

/// The name of a local.
pub fn local_name_of<'a>(
    alloc: Global,
    fuel: usize,
    bytes: &'a [u8],
) -> Result<(LocalName, &'a [u8]), Stop>
    ensures { Gives (λ x. (x.0, x.1.now)) result (names.plain_name_at fuel bytes.now) }
{
    let (name, rest) = plain_text(alloc, fuel, bytes)?;
    Ok((LocalName::of_text(name), rest))
}

/// The name of a label.
pub fn label_name_of<'a>(
    alloc: Global,
    fuel: usize,
    bytes: &'a [u8],
) -> Result<(LabelName, &'a [u8]), Stop>
    ensures { Gives (λ x. (x.0, x.1.now)) result (names.plain_name_at fuel bytes.now) }
{
    let (name, rest) = plain_text(alloc, fuel, bytes)?;
    Ok((LabelName::of_text(name), rest))
}

/// The name of a class.
#[tactic(auto, unfolding(sj_text_spec::specs::Names::named_at))]
pub fn class_name_of<'a>(
    alloc: Global,
    fuel: usize,
    bytes: &'a [u8],
) -> Result<(ClassName, &'a [u8]), Stop>
    ensures { Gives (λ x. (x.0, x.1.now)) result (names.class_name_at fuel bytes.now) }
{
    let (name, rest) = text_of(alloc, fuel, Spot::PartStart, literal(b"\"", bytes)?)?;
    if !is_class_name(name.as_str()) {
        return Err(Stop::Bad(rest.len()));
    }
    let rest = literal(b"\"", rest)?;
    Ok((ClassName::of_text(name), rest))
}

/// The name of the class of a class type.
#[tactic(auto, unfolding(sj_text_spec::specs::Names::named_at))]
pub fn type_class_of<'a>(
    alloc: Global,
    fuel: usize,
    bytes: &'a [u8],
) -> Result<(ClassName, &'a [u8]), Stop>
    ensures { Gives (λ x. (x.0, x.1.now)) result (names.type_class_at fuel bytes.now) }
{
    let (name, rest) = text_of(alloc, fuel, Spot::PartStart, literal(b"\"", bytes)?)?;
    if name.as_str() == OBJECT || !is_class_name(name.as_str()) {
        return Err(Stop::Bad(rest.len()));
    }
    let rest = literal(b"\"", rest)?;
    Ok((ClassName::of_text(name), rest))
}

/// A method name in its spelling.
#[tactic(auto, unfolding(sj_text_spec::specs::Names::named_at))]
pub fn method_name_of<'a>(
    alloc: Global,
    fuel: usize,
    bytes: &'a [u8],
) -> Result<(MethodName, &'a [u8]), Stop>
    ensures { Gives (λ x. (x.0, x.1.now)) result (names.method_name_at fuel bytes.now) }
{
    let (spelled, rest) = text_of(alloc, fuel, Spot::MethodStart, literal(b"\"", bytes)?)?;
    match MethodName::parse(alloc, spelled.as_str()) {
        Ok(method) => Ok((method, literal(b"\"", rest)?)),
        Err(NameError::BadName) => Err(Stop::Bad(rest.len())),
        Err(NameError::NoMemory) => Err(Stop::NoMemory),
    }
}

/// A reference to an array in its spelling.
#[tactic(auto, unfolding(sj_text_spec::specs::Names::named_at))]
pub fn array_of<'a>(
    alloc: Global,
    fuel: usize,
    bytes: &'a [u8],
) -> Result<(ArrayRef, &'a [u8]), Stop>
    ensures { Gives (λ x. (x.0, x.1.now)) result (names.array_at fuel bytes.now) }
{
    let (spelled, rest) = text_of(alloc, fuel, Spot::ArrayStart, literal(b"\"", bytes)?)?;
    match TypeRef::parse(alloc, spelled.as_str()) {
        Ok(reference) => match &reference {
            TypeRef::Array(array) => Ok((array.copied()?, literal(b"\"", rest)?)),
            _ => Err(Stop::Bad(rest.len())),
        },
        Err(NameError::BadName) => Err(Stop::Bad(rest.len())),
        Err(NameError::NoMemory) => Err(Stop::NoMemory),
    }
}
