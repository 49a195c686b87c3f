// Single words of a link command.
ghost use Rattle.std.specs.Prelude.{◌≡◌};
ghost use Rattle.sj_words.specs.Words as words;

use crate::Style;

/// An option.
#[derive(Clone, Copy)]
pub enum Choice {
    Split,
    Optimize,
}

/// An option with its value.
#[derive(Clone, Copy)]
pub enum Setting {
    Split(Style),
    Optimize(bool),
}

/// What a word behind `link` is.
#[derive(Clone, Copy)]
pub enum WordKind {
    /// `--`: every word behind it is an operand.
    End,
    /// A path.
    Operand,
    /// An option with its value.
    Whole(Setting),
    /// An option whose value is the next word.
    Name(Choice),
    /// A word that isn't in the grammar.
    Unknown,
}

/// What the word is, where no `--` stands in front of it.
pub fn kind(word: &str) -> WordKind
    ensures { result ≡ words.kind_of word.now }
{
    if word == "--" {
        WordKind::End
    } else if is_operand(word) {
        WordKind::Operand
    } else {
        option_kind(word)
    }
}

// Whether the word is a path where no `--` stands in front of it.
fn is_operand(word: &str) -> bool
    ensures { result ≡ words.is_operand word.now }
{
    !word.starts_with('-') || word == "-"
}

fn option_kind(word: &str) -> WordKind
    ensures { result ≡ words.option_kind word.now }
{
    match word {
        "--split" => WordKind::Name(Choice::Split),
        "--optimize" => WordKind::Name(Choice::Optimize),
        "--split=fewest" => WordKind::Whole(Setting::Split(Style::Fewest)),
        "--split=smallest" => WordKind::Whole(Setting::Split(Style::Smallest)),
        "--optimize=on" => WordKind::Whole(Setting::Optimize(true)),
        "--optimize=off" => WordKind::Whole(Setting::Optimize(false)),
        _ => WordKind::Unknown,
    }
}

/// The option with this word as its value, if it is one of its values.
pub fn with_value(choice: Choice, word: &str) -> Option<Setting>
    ensures { result ≡ words.value_of choice word.now }
{
    match choice {
        Choice::Split => split_value(word),
        Choice::Optimize => optimize_value(word),
    }
}

fn split_value(word: &str) -> Option<Setting>
    ensures { result ≡ words.split_value word.now }
{
    match style_named(word) {
        Some(style) => Some(Setting::Split(style)),
        None => None,
    }
}

/// The style that the word names.
pub fn style_named(word: &str) -> Option<Style>
    ensures { result ≡ words.style_of word.now }
{
    match word {
        "fewest" => Some(Style::Fewest),
        "smallest" => Some(Style::Smallest),
        _ => None,
    }
}

fn optimize_value(word: &str) -> Option<Setting>
    ensures { result ≡ words.optimize_value word.now }
{
    match word {
        "on" => Some(Setting::Optimize(true)),
        "off" => Some(Setting::Optimize(false)),
        _ => None,
    }
}
