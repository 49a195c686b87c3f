// The method entries of a world.
ghost use Rattle.std.specs.Prelude.{IfOk, OnOk};
ghost use Rattle.sj_baselink_spec.specs.Entries.{IsMethodEntry, AreEntries};
ghost use Rattle.sj_baselink.specs.Steps.{Puts};

use crate::direct::put_direct;
use crate::made::made_classes;
use crate::ordered::in_order;
use crate::proxies::put_proxies;
use indexmap::IndexSet;
use sj_names::NoMemory;
use sj_world::{MethodEntry, Reached, World};
use std::alloc::Global;

/// The method entries, each once, in order.
pub fn entries_of(alloc: Global, w: &World, r: &Reached) -> Result<Vec<MethodEntry>, NoMemory>
    ensures { IfOk result (λ entries. AreEntries w.now r.now entries.items) }
{
    let mut entries = IndexSet::new(alloc);
    put_entries(alloc, w, r, &mut entries)?;
    in_order(alloc, entries)
}

fn put_entries(
    alloc: Global,
    w: &World,
    r: &Reached,
    entries: &mut IndexSet<MethodEntry>,
) -> Result<(), NoMemory>
    ensures { OnOk result (Puts (IsMethodEntry w.now r.now) entries.old.keys entries.new.keys) }
{
    let made = made_classes(alloc, r.facts())?;
    put_direct(alloc, w, r, made.as_slice(), entries)?;
    put_proxies(alloc, w, r.facts(), made.as_slice(), entries)
}
