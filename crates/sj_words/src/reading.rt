// The words of a command line.
ghost use Rattle.std.specs.Prelude.{◌≡◌, IfOk, map, string_bytes};
ghost use Rattle.sj_words.specs.Command as spec;
ghost use Rattle.sj_words.specs.Collected.{gifts_in};

use crate::given::{Collected, given};
use crate::numbers::number;
use crate::{Command, Link, Style};
use sj_names::{Items, NoMemory, Text};
use std::alloc::Global;

/// What the words of a command line, without the program's name, ask for, if they are in the grammar:
///
/// - `link [--split fewest|smallest] [--optimize on|off] ENTRIES OUT FOLDER..`, with one folder or more. The options may stand
///   anywhere behind `link` and in front of a word `--`, each at most once, as `--name value` or `--name=value`; `fewest` and `on`
///   are the defaults. Behind the first `--` every word is an operand. In front of it none begins with `-`, but for `-` alone.
/// - `gen N`, where N is a number from 1 to 20,000 in decimal digits without a leading zero.
///
/// `None` exactly where they aren't; `NoMemory` where no memory is left.
pub fn command(alloc: Global, words: &[String]) -> Result<Option<Command>, NoMemory>
    ensures { IfOk result (λ c. c ≡ spec.command (map string_bytes words.now)) }
{
    match words {
        [name, words @ ..] if name.as_str() == "link" => link(alloc, words),
        [name, words @ ..] if name.as_str() == "gen" => Ok(generate(words)),
        _ => Ok(None),
    }
}

fn link(alloc: Global, words: &[String]) -> Result<Option<Command>, NoMemory>
    ensures { IfOk result (λ c. c ≡ spec.link_words (map string_bytes words.now)) }
{
    match given(alloc, words)? {
        Some(collected) => linked(alloc, &collected),
        None => Ok(None),
    }
}

fn generate(words: &[String]) -> Option<Command>
    ensures { result ≡ spec.generate_of (map string_bytes words.now) }
{
    match words {
        [word] => match number(word.as_str()) {
            Some(number) => Some(Command::Generate(number)),
            None => None,
        },
        _ => None,
    }
}

// The command of what the words give.
fn linked(alloc: Global, collected: &Collected) -> Result<Option<Command>, NoMemory>
    ensures { IfOk result (λ c. c ≡ spec.link_of (gifts_in collected.now)) }
{
    let style = match collected.styles.as_slice() {
        [] => Style::Fewest,
        [style] => *style,
        _ => return Ok(None),
    };
    let optimize = match collected.switches.as_slice() {
        [] => true,
        [switch] => *switch,
        _ => return Ok(None),
    };
    with_operands(alloc, style, optimize, collected.operands.as_slice())
}

/// The link command with these operands, if they are enough: the entries file, the place of the modules and a folder or more.
pub fn with_operands(
    alloc: Global,
    style: Style,
    optimize: bool,
    operands: &[Text],
) -> Result<Option<Command>, NoMemory>
    ensures { IfOk result (λ c. c ≡ spec.with_operands style optimize operands.now) }
{
    let [entries, out, folders @ ..] = operands else {
        return Ok(None);
    };
    if folders.is_empty() {
        return Ok(None);
    }
    Ok(Some(Command::Link(Link {
        style,
        optimize,
        entries: entries.copied()?,
        out: out.copied()?,
        folders: copies(alloc, folders)?,
    })))
}

// The same texts once more.
fn copies(alloc: Global, texts: &[Text]) -> Result<Items<Text>, NoMemory>
    ensures { IfOk result (λ c. c ≡ texts.now) }
{
    let mut copies = Vec::new(alloc);
    for text in texts {
        copies.push(text.copied()?)?;
    }
    Ok(Items::from_vec(copies))
}
