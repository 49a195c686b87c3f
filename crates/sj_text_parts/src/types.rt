// Types.
ghost use Rattle.std.specs.Prelude.{◌≡◌};
ghost use Rattle.text_scan.specs.Gives.{Gives};
ghost use Rattle.sj_text_spec.specs.Reading as reading;

use crate::tables::{TypeWord, type_word_of};
use sj_text_scan::{array_of, type_class_of};
use sj_trees::IrType;
use std::alloc::Global;
use text_scan::{Stop, literal, next_is};

/// A type of one word.
#[tactic(auto, unfolding(sj_text_spec::specs::Reading::type_word_at))]
fn word_type_of(bytes: &[u8]) -> Result<(IrType, &[u8]), Stop>
    ensures { Gives (λ x. (x.0, x.1.now)) result (reading.type_word_at bytes.now) }
{
    let (word, rest) = type_word_of(bytes)?;
    let tpe = match word {
        TypeWord::Any => IrType::Any,
        TypeWord::Nothing => IrType::Nothing,
        TypeWord::Undefined => IrType::Undefined,
        TypeWord::Boolean => IrType::Boolean,
        TypeWord::Char => IrType::Char,
        TypeWord::Byte => IrType::Byte,
        TypeWord::Short => IrType::Short,
        TypeWord::Int => IrType::Int,
        TypeWord::Long => IrType::Long,
        TypeWord::String => IrType::String,
        TypeWord::Null => IrType::Null,
        TypeWord::NoType => IrType::NoType,
    };
    Ok((tpe, rest))
}

/// The type of a class or of an array, behind its parenthesis.
#[tactic(auto, unfolding(sj_text_spec::specs::Reading::long_type_at))]
fn long_type_of<'a>(alloc: Global, fuel: usize, bytes: &'a [u8]) -> Result<(IrType, &'a [u8]), Stop>
    ensures { Gives (λ x. (x.0, x.1.now)) result (reading.long_type_at fuel bytes.now) }
{
    if next_is(b'L', bytes) {
        let rest = literal(b"L ", bytes)?;
        let (class, rest) = type_class_of(alloc, fuel, rest)?;
        let rest = literal(b")", rest)?;
        Ok((IrType::Class(class), rest))
    } else {
        let rest = literal(b"A ", bytes)?;
        let (array, rest) = array_of(alloc, fuel, rest)?;
        let rest = literal(b")", rest)?;
        Ok((IrType::Array(array), rest))
    }
}

/// A type.
#[tactic(auto, unfolding(sj_text_spec::specs::Reading::type_at))]
pub fn type_of<'a>(alloc: Global, fuel: usize, bytes: &'a [u8]) -> Result<(IrType, &'a [u8]), Stop>
    ensures { Gives (λ x. (x.0, x.1.now)) result (reading.type_at fuel bytes.now) }
{
    if next_is(b'(', bytes) {
        let rest = literal(b"(", bytes)?;
        long_type_of(alloc, fuel, rest)
    } else {
        word_type_of(bytes)
    }
}
