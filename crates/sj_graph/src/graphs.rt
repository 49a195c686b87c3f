// Graphs of classes.
ghost use Rattle.std.specs.Prelude.{◌≡◌, IfOk};

use sj_names::{ClassName, Items, NoMemory};

/// A class and a class to which it refers.
#[derive(Drop, PartialEq, Eq, Hash)]
pub struct Reference {
    pub from: ClassName,
    pub to: ClassName,
}

impl Reference {
    /// The same reference once more.
    pub fn copied(&self) -> Result<Reference, NoMemory>
        ensures { IfOk result (λ r. r ≡ self.now) }
    {
        let from = self.from.copied()?;
        let to = self.to.copied()?;
        Ok(Reference { from, to })
    }
}

/// The classes that own a piece, and the references between classes.
#[derive(Drop)]
pub struct Graph {
    pub owners: Items<ClassName>,
    pub references: Items<Reference>,
}
