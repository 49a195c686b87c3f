// The files of a link.
use sj_names::{Bytes, Text};

/// A file of a link: the text of a module, under the module's name with `.js`.
#[derive(Drop)]
pub struct ModuleFile {
    pub name: Text,
    pub bytes: Bytes,
}
