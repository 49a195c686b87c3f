// Places in source files.

/// A place in a source file: the number of the file in its class's list, and the line and the column, all from 0.
#[derive(Clone, Copy, Debug, PartialEq, Eq)]
pub struct Position {
    pub file: u32,
    pub line: u32,
    pub column: u32,
}
