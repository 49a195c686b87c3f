// Where the next character of a name leads.
ghost use Rattle.std.specs.Prelude.{◌≡◌, ◌<◌};
ghost use Rattle.sj_names.specs.Grammar.{is_name_byte};
ghost use Rattle.sj_text_spec.specs.Names as names;
ghost use Rattle.sj_text_spec.specs.declared.words.Spot.TheVariants.{ArrayBase, ArrayEnd, PartStart, TypeBase, TypeEnd, TypePartStart};

use sj_text_spec::Spot;

/// Whether the character may stand in a plain name.
fn is_name_character(c: u32) -> bool
    ensures { result ≡ is_name_byte c }
{
    c > ' ' as u32
        && c != 0x7f
        && c != '.' as u32
        && c != ';' as u32
        && c != '[' as u32
        && c != '/' as u32
        && c != '<' as u32
        && c != '>' as u32
}

/// On with a character of a name.
fn on_name(c: u32, spot: Spot) -> Option<Spot>
    ensures { result ≡ names.on_name c spot }
{
    if is_name_character(c) {
        Some(spot)
    } else {
        None
    }
}

/// On with this character.
fn on(want: u32, c: u32, spot: Spot) -> Option<Spot>
    ensures { result ≡ names.on want c spot }
{
    if c == want { Some(spot) } else { None }
}

fn is_letter(c: u32) -> bool
    ensures { result ≡ names.is_letter c }
{
    c == 'Z' as u32
        || c == 'C' as u32
        || c == 'B' as u32
        || c == 'S' as u32
        || c == 'I' as u32
        || c == 'J' as u32
}

/// Behind dimensions of an array.
fn array_step(dimensions: u8, c: u32) -> Option<Spot>
    ensures { result ≡ names.base_step dimensions c (λ m. ArrayBase m) ArrayEnd PartStart }
{
    if c == '[' as u32 && dimensions < 255 {
        Some(Spot::ArrayBase(dimensions + 1))
    } else if is_letter(c) {
        Some(Spot::ArrayEnd)
    } else if c == 'L' as u32 {
        Some(Spot::PartStart)
    } else {
        None
    }
}

/// Behind dimensions of a parameter or a result.
fn type_step(dimensions: u8, c: u32) -> Option<Spot>
    ensures { result ≡ names.base_step dimensions c (λ m. TypeBase m) TypeEnd TypePartStart }
{
    if c == '[' as u32 && dimensions < 255 {
        Some(Spot::TypeBase(dimensions + 1))
    } else if is_letter(c) {
        Some(Spot::TypeEnd)
    } else if c == 'L' as u32 {
        Some(Spot::TypePartStart)
    } else {
        None
    }
}

/// The spot behind one character more, if it may stand there.
pub fn step(spot: Spot, c: u32) -> Option<Spot>
    ensures { result ≡ names.step spot c }
{
    match spot {
        Spot::NameStart | Spot::Name => on_name(c, Spot::Name),
        Spot::PartStart => on_name(c, Spot::Part),
        Spot::Part => {
            if c == '.' as u32 {
                Some(Spot::PartStart)
            } else {
                on_name(c, Spot::Part)
            }
        }
        Spot::ArrayStart => on('[' as u32, c, Spot::ArrayBase(1)),
        Spot::ArrayBase(dimensions) => array_step(dimensions, c),
        Spot::MethodStart => {
            if c == '<' as u32 {
                Some(Spot::Less)
            } else {
                on_name(c, Spot::Simple)
            }
        }
        Spot::Less => on('i' as u32, c, Spot::LessI),
        Spot::LessI => on('n' as u32, c, Spot::LessIn),
        Spot::LessIn => on('i' as u32, c, Spot::LessIni),
        Spot::LessIni => on('t' as u32, c, Spot::LessInit),
        Spot::LessInit => on('>' as u32, c, Spot::InitEnd),
        Spot::InitEnd | Spot::TypeEnd => on(';' as u32, c, Spot::TypeStart),
        Spot::Simple => {
            if c == ';' as u32 {
                Some(Spot::TypeStart)
            } else {
                on_name(c, Spot::Simple)
            }
        }
        Spot::TypeStart => {
            if c == 'V' as u32 || c == 'R' as u32 {
                Some(Spot::Last)
            } else {
                type_step(0, c)
            }
        }
        Spot::TypeBase(dimensions) => type_step(dimensions, c),
        Spot::TypePartStart => on_name(c, Spot::TypePart),
        Spot::TypePart => {
            if c == ';' as u32 {
                Some(Spot::TypeStart)
            } else if c == '.' as u32 {
                Some(Spot::TypePartStart)
            } else {
                on_name(c, Spot::TypePart)
            }
        }
        Spot::ArrayEnd | Spot::Last => None,
    }
}

/// The spot behind a character.
pub fn moved(spot: Spot, c: u32) -> Spot
    ensures { result ≡ names.moved spot c }
{
    step(spot, c).unwrap_or(spot)
}

/// Whether each character that no rule names may stand here.
pub fn is_open(spot: Spot) -> bool
    ensures { result ≡ names.is_open spot }
{
    step(spot, 'a' as u32).is_some()
}
