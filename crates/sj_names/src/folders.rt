// A folder of class files, as an edit reads it.
use crate::{Bytes, Items, Text};

/// One file of a folder: its path, relative and with `/`, and its bytes.
#[derive(Drop)]
pub struct SourceFile {
    pub path: Text,
    pub bytes: Bytes,
}

/// The files of one folder.
#[derive(Drop)]
pub struct Folder {
    pub files: Items<SourceFile>,
}
