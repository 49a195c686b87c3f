// The words of the command line.
ghost use Rattle.std.specs.Prelude.{◌≡◌, map, option_map, string_bytes};
ghost use Rattle.std.specs.List.{list_all};
ghost use Rattle.sj_outside.specs.Words.{is_operand};
ghost use Rattle.sjsir.specs.Command.{alone, command, make_of, print_of};
ghost use Rattle.sjsir.specs.Parts.{command_of};

use sj_outside::is_operand;

/// What the words of a command line ask for.
#[derive(Clone, Copy)]
pub enum Asked<'w> {
    Help,
    Version,
    /// The listings of class files.
    Print(&'w [String]),
    /// The class file of a listing, under a name.
    Make { listing: &'w str, out: &'w str },
}

/// What `words` ask for, if they are in the grammar.
pub fn read_words(words: &[String]) -> Option<Asked<'_>>
    ensures { option_map command_of result ≡ command (map string_bytes words.now) }
{
    let (word, names) = words.split_first()?;
    match word.as_str() {
        "--help" => alone(names, Asked::Help),
        "--version" => alone(names, Asked::Version),
        "print" => files_to_print(names),
        "make" => class_to_make(names),
        _ => None,
    }
}

// This, where no word follows.
fn alone<'w>(names: &[String], asked_for: Asked<'w>) -> Option<Asked<'w>>
    ensures { option_map command_of result ≡ alone (map string_bytes names.now) (command_of asked_for.entry) }
{
    if names.is_empty() {
        Some(asked_for)
    } else {
        None
    }
}

fn files_to_print(names: &[String]) -> Option<Asked<'_>>
    ensures { option_map command_of result ≡ print_of (map string_bytes names.now) }
{
    if !names.is_empty() && are_operands(names) {
        Some(Asked::Print(names))
    } else {
        None
    }
}

fn class_to_make(names: &[String]) -> Option<Asked<'_>>
    ensures { option_map command_of result ≡ make_of (map string_bytes names.now) }
{
    match names {
        [listing, out] if is_operand(listing.as_str()) && is_operand(out.as_str()) => {
            Some(Asked::Make {
                listing: listing.as_str(),
                out: out.as_str(),
            })
        }
        _ => None,
    }
}

fn are_operands(names: &[String]) -> bool
    ensures { result ≡ list_all is_operand (map string_bytes names.now) }
{
    for name in names {
        if !is_operand(name.as_str()) {
            return false;
        }
    }
    true
}
