// References to types, and the table of method names.
ghost use Rattle.std.specs.Prelude.{◌≡◌};
ghost use Rattle.sj_read_spec.specs.References.{plain_base, plain_reference, base_at, array_at, array_reference_at, reference_of, parameter_at, result_at, method_name_at};
ghost use Rattle.sj_read_spec.specs.Reading.{list_at};
ghost use Rattle.sj_read_trees.specs.Stops.{Gives};

use crate::fields::byte_of;
use crate::items::{Item, list_of};
use crate::names::NameEntry;
use crate::stops::{Stop, bad};
use crate::tables::{class_name_of, simple_name_of};
use sj_names::{ArrayRef, BaseRef, MethodName, Shared, TypeRef};
use sj_trees::Code;
use std::alloc::Global;

// The base that a code gives alone.
fn plain_base(code: u8) -> Option<BaseRef>
    ensures { result ≡ plain_base code }
{
    match code {
        2 => Some(BaseRef::Boolean),
        3 => Some(BaseRef::Char),
        4 => Some(BaseRef::Byte),
        5 => Some(BaseRef::Short),
        6 => Some(BaseRef::Int),
        7 => Some(BaseRef::Long),
        _ => None,
    }
}

// The reference that a code gives alone.
fn plain_reference(code: u8) -> Option<TypeRef>
    ensures { result ≡ plain_reference code }
{
    match code {
        2 => Some(TypeRef::Boolean),
        3 => Some(TypeRef::Char),
        4 => Some(TypeRef::Byte),
        5 => Some(TypeRef::Short),
        6 => Some(TypeRef::Int),
        7 => Some(TypeRef::Long),
        _ => None,
    }
}

// The base of an array.
fn base_of<'a>(names: &[NameEntry], bytes: &'a [u8]) -> Result<(BaseRef, &'a [u8]), Stop>
    ensures { Gives (λ x. (x.0, x.1.now)) result (base_at names.now bytes.now) }
{
    let (code, rest) = byte_of(bytes)?;
    if code == 8 {
        let (class, rest) = class_name_of(names, rest)?;
        return Ok((BaseRef::Class(class), rest));
    }
    match plain_base(code) {
        Some(base) => Ok((base, rest)),
        None => Err(bad(Code::BadTag, bytes)),
    }
}

// An array behind its code.
#[tactic(auto, unfolding(sj_read_spec::specs::References::array_at))]
fn array_of<'a>(names: &[NameEntry], bytes: &'a [u8]) -> Result<(ArrayRef, &'a [u8]), Stop>
    ensures { Gives (λ x. (x.0, x.1.now)) result (array_at names.now bytes.now) }
{
    let (dimensions, rest) = byte_of(bytes)?;
    if dimensions == 0 {
        return Err(bad(Code::BadTag, bytes));
    }
    let (base, rest) = base_of(names, rest)?;
    Ok((ArrayRef { dimensions, base }, rest))
}

// An array with its code.
#[tactic(auto, unfolding(sj_read_spec::specs::References::array_reference_at))]
pub fn array_reference_of<'a>(
    names: &[NameEntry],
    bytes: &'a [u8],
) -> Result<(ArrayRef, &'a [u8]), Stop>
    ensures { Gives (λ x. (x.0, x.1.now)) result (array_reference_at names.now bytes.now) }
{
    let (code, rest) = byte_of(bytes)?;
    if code != 9 {
        return Err(bad(Code::BadTag, bytes));
    }
    array_of(names, rest)
}

// A reference other than V behind its code, which begins at `front`.
#[tactic(auto, unfolding(sj_read_spec::specs::References::reference_of))]
fn reference_behind<'a>(
    names: &[NameEntry],
    code: u8,
    front: &[u8],
    rest: &'a [u8],
) -> Result<(TypeRef, &'a [u8]), Stop>
    ensures { Gives (λ x. (x.0, x.1.now)) result (reference_of names.now code front.now rest.now) }
{
    if code == 8 {
        let (class, rest) = class_name_of(names, rest)?;
        return Ok((TypeRef::Class(class), rest));
    }
    if code == 9 {
        let (array, rest) = array_of(names, rest)?;
        return Ok((TypeRef::Array(array), rest));
    }
    match plain_reference(code) {
        Some(reference) => Ok((reference, rest)),
        None => Err(bad(Code::BadTag, front)),
    }
}

// The reference of a parameter.
#[derive(Drop)]
struct ParameterItem<'t>(&'t [NameEntry]);

impl Item for ParameterItem<'_> {
    ghost use Rattle.sj_names.specs.declared.references.TypeRef.{TypeRef};
    ghost use Rattle.sj_read_spec.specs.References.{parameter_at};

    type Value = TypeRef;

    ghost Seen = { TypeRef };

    ghost seen = { λ r. r };

    ghost reading = { λ s. parameter_at s.0.now };

    fn read<'a>(&self, _alloc: Global, bytes: &'a [u8]) -> Result<(TypeRef, &'a [u8]), Stop> {
        let (code, rest) = byte_of(bytes)?;
        reference_behind(self.0, code, bytes, rest)
    }
}

// The reference of a result.
fn result_of<'a>(names: &[NameEntry], bytes: &'a [u8]) -> Result<(Option<TypeRef>, &'a [u8]), Stop>
    ensures { Gives (λ x. (x.0, x.1.now)) result (result_at names.now bytes.now) }
{
    let (code, rest) = byte_of(bytes)?;
    if code == 0 {
        return Ok((None, rest));
    }
    if code == 1 {
        return Ok((Some(TypeRef::Void), rest));
    }
    let (reference, rest) = reference_behind(names, code, bytes, rest)?;
    Ok((Some(reference), rest))
}

// The references of parameters.
fn parameters_of<'a>(
    alloc: Global,
    names: &[NameEntry],
    bytes: &'a [u8],
) -> Result<(Shared<TypeRef>, &'a [u8]), Stop>
    ensures { Gives (λ x. (x.0, x.1.now)) result (list_at (parameter_at names.now) bytes.now) }
{
    let (params, rest) = list_of(alloc, &ParameterItem(names), bytes)?;
    Ok((Shared::from_vec(params)?, rest))
}

/// An entry of the table of method names.
#[derive(Drop)]
pub struct MethodNameItem<'t>(pub &'t [NameEntry]);

impl Item for MethodNameItem<'_> {
    ghost use Rattle.sj_names.specs.declared.method_names.MethodName.{MethodName};
    ghost use Rattle.sj_read_spec.specs.References.{method_name_at};

    type Value = MethodName;

    ghost Seen = { MethodName };

    ghost seen = { λ m. m };

    ghost reading = { λ s. method_name_at s.0.now };

    #[tactic(auto, unfolding(sj_read_spec::specs::References::method_name_at))]
    fn read<'a>(&self, alloc: Global, bytes: &'a [u8]) -> Result<(MethodName, &'a [u8]), Stop> {
        let (simple, rest) = simple_name_of(self.0, bytes)?;
        let (params, rest) = parameters_of(alloc, self.0, rest)?;
        let (result_reference, rest) = result_of(self.0, rest)?;
        Ok((
            MethodName {
                simple,
                params,
                result: result_reference,
            },
            rest,
        ))
    }
}
