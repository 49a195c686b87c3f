// What a command line asks for.
use sj_names::{Items, Text};

/// How classes are divided into modules.
#[derive(Clone, Copy, Debug, PartialEq, Eq)]
pub enum Style {
    /// As few modules as the public modules allow.
    Fewest,
    /// As small modules as the references between classes allow.
    Smallest,
}

/// What the words of a link command ask for.
#[derive(Drop)]
pub struct Link {
    pub style: Style,
    /// Whether bodies are optimised.
    pub optimize: bool,
    /// The path of the entries file.
    pub entries: Text,
    /// Where the files of modules are put.
    pub out: Text,
    /// The folders that are linked, one after the other: one or more.
    pub folders: Items<Text>,
}

/// What the words of a command line ask for.
#[derive(Drop)]
pub enum Command {
    /// To link folders.
    Link(Link),
    /// To link the generated folders of so many classes, 1 to 20,000.
    Generate(u32),
}
