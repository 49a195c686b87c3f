// How a session links.
use sj_split::Style;

/// How a session links.
#[derive(Clone, Copy)]
pub struct Options {
    /// How a link is split into modules.
    pub style: Style,
    /// Whether bodies are optimised.
    pub optimize: bool,
}
