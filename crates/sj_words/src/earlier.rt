// The commands that are taken before the whole grammar is.
ghost use Rattle.std.specs.Prelude.{◌≡◌, IfOk, map, string_bytes};
ghost use Rattle.std.specs.List.{list_all};
ghost use Rattle.sj_words.specs.Earlier as spec;

use crate::given::Collected;
use crate::kinds::style_named;
use crate::reading::with_operands;
use crate::{Command, Style};
use sj_names::NoMemory;
use std::alloc::Global;

/// What the words of a command line, without the program's name, ask for, if they are `link --optimize off ENTRIES OUT FOLDER..`,
/// with one folder or more, where none of the words behind `off` begins with `-`.
///
/// `None` exactly where they aren't; `NoMemory` where no memory is left.
pub fn first_command(alloc: Global, words: &[String]) -> Result<Option<Command>, NoMemory>
    ensures { IfOk result (λ c. c ≡ spec.first_command (map string_bytes words.now)) }
{
    match words {
        [name, words @ ..] if name.as_str() == "link" => optimize_off(alloc, Style::Fewest, words),
        _ => Ok(None),
    }
}

/// The same for `link [--split fewest|smallest] --optimize off ENTRIES OUT FOLDER..`, in this order.
pub fn split_command(alloc: Global, words: &[String]) -> Result<Option<Command>, NoMemory>
    ensures { IfOk result (λ c. c ≡ spec.split_command (map string_bytes words.now)) }
{
    match words {
        [name, words @ ..] if name.as_str() == "link" => split_first(alloc, words),
        _ => Ok(None),
    }
}

fn split_first(alloc: Global, words: &[String]) -> Result<Option<Command>, NoMemory>
    ensures { IfOk result (λ c. c ≡ spec.split_first (map string_bytes words.now)) }
{
    match words {
        [option, value, words @ ..] if option.as_str() == "--split" => {
            match style_named(value.as_str()) {
                Some(style) => optimize_off(alloc, style, words),
                None => Ok(None),
            }
        }
        _ => optimize_off(alloc, Style::Fewest, words),
    }
}

fn optimize_off(alloc: Global, style: Style, words: &[String]) -> Result<Option<Command>, NoMemory>
    ensures { IfOk result (λ c. c ≡ spec.optimize_off style (map string_bytes words.now)) }
{
    match words {
        [option, value, words @ ..] if option.as_str() == "--optimize" && value.as_str() == "off" =>
            { plain_operands(alloc, style, words) }
        _ => Ok(None),
    }
}

#[tactic(auto, using(crate::proofs::Stays::plain_words))]
fn plain_operands(
    alloc: Global,
    style: Style,
    words: &[String],
) -> Result<Option<Command>, NoMemory>
    ensures { IfOk result (λ c. c ≡ spec.plain_operands style (map string_bytes words.now)) }
{
    if !are_plain(words) {
        return Ok(None);
    }
    let mut collected = Collected::new(alloc);
    collected.add_operands(alloc, words)?;
    with_operands(alloc, style, false, collected.operands.as_slice())
}

// Whether none of the words begins with `-`.
fn are_plain(words: &[String]) -> bool
    ensures { result ≡ list_all (λ w. spec.is_plain (string_bytes w)) words.now }
{
    words.iter().all(|word| !word.as_str().starts_with('-'))
}
