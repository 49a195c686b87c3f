// Plans.
ghost use Rattle.std.specs.Prelude.{◌≡◌, length};

use sj_names::{ClassName, EntryPoint, Items, Text};
use std::marker::Model;

/// How a link is split into modules.
#[derive(Clone, Copy)]
pub enum Style {
    /// As few modules as may be: a module for each set of public modules that reach the same classes.
    Fewest,
    /// Modules as small as may be: one for each set of classes that lead to each other.
    Smallest,
}

/// A module of a plan.
#[derive(Drop)]
pub struct PlannedModule {
    /// The name, without `.js`.
    pub name: Text,
    /// Its classes, in the order of their bytes.
    pub classes: Items<ClassName>,
    /// Its initializers, in the order of the entries.
    pub initializers: Items<EntryPoint>,
}

/// The modules of a link, one for each file, in the order of the files' names.
#[derive(Drop)]
pub struct Plan {
    modules: Vec<PlannedModule>,
}

impl Model for Plan {
    ghost use Rattle.std.specs.Prelude.{List};
    ghost use Rattle.sj_split.specs.declared.plans.PlannedModule.{PlannedModule};

    ghost Value = { List PlannedModule };

    ghost view = { λ p. p.modules.items };
}

impl Plan {
    // The plan of these modules.
    pub(crate) fn of_modules(modules: Vec<PlannedModule>) -> Plan
        ensures { result ≡ modules.items }
    {
        Plan { modules }
    }

    /// The modules.
    pub fn modules(&self) -> &[PlannedModule]
        ensures { result.now ≡ self.now }
    {
        self.modules.as_slice()
    }

    /// How many modules there are.
    pub fn len(&self) -> usize
        ensures { result ≡ length self.now }
    {
        self.modules.len()
    }
}
