// The order of the spellings of results.
ghost use Rattle.std.specs.Prelude.{◌≡◌, ◌<◌, ◌∷◌, [], Some, slice_get, drop};
ghost use Rattle.std.specs.Ordering.{nat_cmp};
ghost use Rattle.std.specs.Cmp.Lexicographic.{slice_cmp};
ghost use Rattle.sj_names.specs.Bases.{spelled_base};
ghost use Rattle.sj_names.specs.References.{spelled};
ghost use Rattle.sj_names.specs.MethodNames.{spelled_result};
ghost use Rattle.sj_world.specs.Spellings.{IsSpelled, parts_cmp};

use sj_names::{BaseRef, TypeRef};
use std::cmp::Ordering;

// A spelling in parts: how many `[` stand in front, the letter behind them, and the name of a class behind that.
#[derive(Drop)]
struct Spelling<'n> {
    dimensions: u8,
    letter: u8,
    name: &'n str,
}

// How two results stand in the order of the bytes of their spellings.
pub fn compare_results(one: &Option<TypeRef>, other: &Option<TypeRef>) -> Ordering
    ensures { result ≡ slice_cmp nat_cmp (spelled_result one.now) (spelled_result other.now) }
{
    compare_spellings(&spelling_of(one), &spelling_of(other))
}

fn compare_spellings(one: &Spelling<'_>, other: &Spelling<'_>) -> Ordering
    ensures { result ≡ parts_cmp one.now.dimensions one.now.letter one.now.name.now other.now.dimensions other.now.letter other.now.name.now }
{
    one.dimensions
        .cmp(&other.dimensions)
        .then(one.letter.cmp(&other.letter))
        .then(one.name.cmp(other.name))
}

fn spelling_of(reference: &Option<TypeRef>) -> Spelling<'_>
    ensures { IsSpelled result.dimensions result.letter result.name.now (spelled_result reference.now) }
{
    match reference {
        Some(reference) => spelling_of_reference(reference),
        None => of_letter(b'R'),
    }
}

fn spelling_of_reference(reference: &TypeRef) -> Spelling<'_>
    ensures { IsSpelled result.dimensions result.letter result.name.now (spelled reference.now) }
{
    match reference {
        TypeRef::Void => of_letter(b'V'),
        TypeRef::Boolean => of_letter(b'Z'),
        TypeRef::Char => of_letter(b'C'),
        TypeRef::Byte => of_letter(b'B'),
        TypeRef::Short => of_letter(b'S'),
        TypeRef::Int => of_letter(b'I'),
        TypeRef::Long => of_letter(b'J'),
        TypeRef::Class(name) => Spelling {
            dimensions: 0,
            letter: b'L',
            name: name.text(),
        },
        TypeRef::Array(array) => Spelling {
            dimensions: array.dimensions,
            letter: letter_of(&array.base),
            name: name_of(&array.base),
        },
    }
}

fn of_letter(letter: u8) -> Spelling<'static>
    requires { letter < 0x5b }
    ensures { IsSpelled result.dimensions result.letter result.name.now (letter ∷ []) }
{
    Spelling {
        dimensions: 0,
        letter,
        name: "",
    }
}

fn letter_of(base: &BaseRef) -> u8
    ensures below { result < 0x5b }
    ensures first { slice_get (spelled_base base.now) 0 ≡ Some result }
{
    match base {
        BaseRef::Boolean => b'Z',
        BaseRef::Char => b'C',
        BaseRef::Byte => b'B',
        BaseRef::Short => b'S',
        BaseRef::Int => b'I',
        BaseRef::Long => b'J',
        BaseRef::Class(_) => b'L',
    }
}

// The name of the class, or nothing.
fn name_of(base: &BaseRef) -> &str
    ensures { result.now ≡ drop 1 (spelled_base base.now) }
{
    match base {
        BaseRef::Class(name) => name.text(),
        _ => "",
    }
}
