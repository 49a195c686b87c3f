// Where classes belong.
ghost use Rattle.std.specs.Prelude.{◌≡◌, IfOk};

use sj_names::{ClassName, NoMemory, Text};

/// A module to which classes belong.
#[derive(Drop)]
pub enum Home {
    /// The public module with this id.
    Public(Text),
    /// The internal module with this key.
    Internal(Text),
}

impl Home {
    /// The same home, with its name shared.
    pub fn copied(&self) -> Result<Home, NoMemory>
        ensures { IfOk result (λ home. home ≡ self.now) }
    {
        match self {
            Home::Public(id) => Ok(Home::Public(id.copied()?)),
            Home::Internal(key) => Ok(Home::Internal(key.copied()?)),
        }
    }
}

/// A class and its home.
#[derive(Drop)]
pub struct Settled {
    pub class: ClassName,
    pub home: Home,
}
