// What a command line says.
use crate::texts::add;
use sj_names::{NameError, NoMemory};
use sj_words::{Command, Link, Style, command, first_command, split_command};
use std::alloc::Global;

/// Adds what the words ask for in the first grammar, in that with styles and in the whole one: `usage`, `link STYLE OPTIMIZE N` with the number of
/// folders, or `gen N`.
pub(crate) fn add_answer(alloc: Global, line: &str, text: &mut String) -> Result<(), NameError> {
    match words_of(alloc, line) {
        Some(words) => add_commands(alloc, &words, text),
        None => add(&["no words\n"], text),
    }
}

// The words of a line, each in hexadecimal digits; there are none where it is empty.
fn words_of(alloc: Global, line: &str) -> Option<Vec<String>> {
    let mut words = Vec::new(alloc);
    if line.is_empty() {
        return Some(words);
    }
    for digits in line.split('\t') {
        words.push(word_of(alloc, digits)?).ok()?;
    }
    Some(words)
}

fn word_of(alloc: Global, digits: &str) -> Option<String> {
    let bytes = hex::decode(alloc, digits).ok()?;
    String::from_utf8(bytes).ok()
}

fn add_commands(alloc: Global, words: &[String], text: &mut String) -> Result<(), NameError> {
    add_command(alloc, first_command(alloc, words)?, text)?;
    add(&["\t"], text)?;
    add_command(alloc, split_command(alloc, words)?, text)?;
    add(&["\t"], text)?;
    add_command(alloc, command(alloc, words)?, text)?;
    add(&["\n"], text)
}

fn add_command(
    alloc: Global,
    command: Option<Command>,
    text: &mut String,
) -> Result<(), NameError> {
    let spelled = spelled(alloc, &command)?;
    add(&[spelled.as_str()], text)
}

fn spelled(alloc: Global, command: &Option<Command>) -> Result<String, NoMemory> {
    match command {
        Some(Command::Link(link)) => spelled_link(alloc, link),
        Some(Command::Generate(number)) => Ok(format!(in alloc; "gen {number}")?),
        None => Ok(String::from_str(alloc, "usage")?),
    }
}

fn spelled_link(alloc: Global, link: &Link) -> Result<String, NoMemory> {
    let style = match link.style {
        Style::Fewest => "fewest",
        Style::Smallest => "smallest",
    };
    let optimize = if link.optimize { "on" } else { "off" };
    let folders = link.folders.as_slice().len();
    Ok(format!(in alloc; "link {style} {optimize} {folders}")?)
}
