// A world with what is reachable and its method entries.
ghost use Rattle.std.specs.Prelude.{IfOk};
ghost use Rattle.sj_baselink_spec.specs.Entries.{IsLinked};

use crate::entries::entries_of;
use sj_names::NoMemory;
use sj_world::{LinkedWorld, Reached, World};
use std::alloc::Global;

/// The world with all that is reachable, and the method entries of its classes: a class that is made, or stands on the chain of one
/// that is made, has one for each method that is called on it, unless its superclass has one that stands for the same body; and a
/// class that is made has one for each reflective name that is called. `NoMemory` alone is an error.
pub fn base_link(alloc: Global, w: &World, r: &Reached) -> Result<LinkedWorld, NoMemory>
    ensures { IfOk result (IsLinked w.now r.now) }
{
    let entries = entries_of(alloc, w, r)?;
    LinkedWorld::linked(alloc, w, r, entries)
}
