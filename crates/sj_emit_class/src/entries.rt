// The method entries of classes.
ghost use Rattle.std.specs.Prelude.{◌≡◌, map, IfOk};
ghost use Rattle.std.specs.List.{filter};
ghost use Rattle.sj_emit_class.specs.Entries.{AreByClass};
ghost use Rattle.sj_world.specs.Known.{is_same};

use class_lists::Lists;
use sj_names::{ClassName, NoMemory};
use sj_world::{LinkedWorld, MethodEntry};
use std::alloc::Global;

/// The method entries of a linked world, under the names of their classes. Want of memory is the only error.
pub fn entries_by_class<'w>(
    alloc: Global,
    w: &'w LinkedWorld,
) -> Result<Lists<&'w MethodEntry>, NoMemory>
    ensures { IfOk result (AreByClass w.now.entries) }
{
    let mut lists = Lists::new(alloc);
    let entries = w.entries();
    for entry in entries {
        lists.put(alloc, &entry.class, entry)?;
    }
    Ok(lists)
}

/// The method entries that the class has, in order, by all of them under the names of their classes. Want of memory is the only error.
pub fn own_entries<'w>(
    alloc: Global,
    w: &LinkedWorld,
    entries: &Lists<&'w MethodEntry>,
    class: &ClassName,
) -> Result<Vec<&'w MethodEntry>, NoMemory>
    requires { AreByClass w.now.entries entries.now }
    ensures { IfOk result (λ list. map (λ e. e.now) list.items ≡ filter (λ e. is_same e.class class.now) w.now.entries) }
{
    Ok(Vec::from_slice(alloc, entries.at(class))?)
}
