// The entry points of a link.
ghost use Rattle.std.specs.Prelude.{◌≡◌, List};
ghost use Rattle.sj_names.specs.EntryPoints.{AreEntries};

use crate::EntryPoint;
use std::marker::Model;

/// The entry points of a link, in order: 1 to 1,000, each valid.
#[derive(Drop)]
pub struct Entries {
    list: Vec<EntryPoint>,
}

impl Model for Entries {
    ghost use Rattle.std.specs.Prelude.{List};
    ghost use Rattle.sj_names.specs.declared.entry_points.EntryPoint.{EntryPoint};
    ghost use Rattle.sj_names.specs.EntryPoints.{AreEntries};

    ghost Value = { List EntryPoint };

    ghost view = { λ e. e.list.items };

    ghost invariant = { λ e. AreEntries e.list.items };
}

impl Entries {
    /// The entry points of `list`.
    pub fn new(list: Vec<EntryPoint>) -> Entries
        requires { AreEntries list.items }
        ensures { result ≡ list.items }
    {
        Entries { list }
    }

    /// The entry points as a slice.
    pub fn as_slice(&self) -> &[EntryPoint]
        ensures entries { result.now ≡ self.now }
        ensures valid { AreEntries self.now }
    {
        self.list.as_slice()
    }
}
