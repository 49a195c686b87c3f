// Method entries in order.
ghost use Rattle.std.specs.Prelude.{◌≡◌, IfOk, All, map};
ghost use Rattle.std.specs.List.{IsDistinct};
ghost use Rattle.std.specs.List.Sorted.{IsPermutation, IsSorted};
ghost use Rattle.sj_world.specs.contracts.linked.MethodEntryPartialEq.TheImpl as entry_eq;
ghost use Rattle.sj_baselink_spec.specs.Entries.{entry_cmp};
ghost use Rattle.sj_baselink.specs.Steps.{AreOnceInOrder};
ghost use Rattle.sj_baselink.specs.Spelled.{entry_of, IsSpelled};

use indexmap::IndexSet;
use sj_names::{NoMemory, Text};
use sj_world::MethodEntry;
use std::alloc::Global;

// An entry and the spelling of its name.
#[derive(Drop)]
pub struct SpelledEntry {
    pub spelling: Text,
    pub entry: MethodEntry,
}

/// The entries in the order of their classes, and then of the spellings of their names.
pub fn in_order(alloc: Global, entries: IndexSet<MethodEntry>) -> Result<Vec<MethodEntry>, NoMemory>
    ensures { IfOk result (λ list. AreOnceInOrder entries.keys list.items) }
{
    let all = listed(alloc, entries)?;
    let list = sorted(alloc, all)?;
    Ok(list)
}

fn listed(alloc: Global, entries: IndexSet<MethodEntry>) -> Result<Vec<MethodEntry>, NoMemory>
    ensures all { IfOk result (λ list. list.items ≡ entries.keys) }
    ensures once { IfOk result (λ list. IsDistinct entry_eq.ghosts.eq list.items) }
{
    Ok(entries.into_iter().collect(alloc)?)
}

fn sorted(alloc: Global, entries: Vec<MethodEntry>) -> Result<Vec<MethodEntry>, NoMemory>
    ensures exact { IfOk result (λ list. IsPermutation entries.items list.items) }
    ensures in_order { IfOk result (λ list. IsSorted entry_cmp list.items) }
{
    let mut spelled = with_spellings(alloc, entries)?;
    spelled.sort_unstable_by(|a, b| {
        a.entry
            .class
            .cmp(&b.entry.class)
            .then(a.spelling.cmp(&b.spelling))
    });
    let list = without_spellings(alloc, spelled)?;
    Ok(list)
}

fn without_spellings(
    alloc: Global,
    spelled: Vec<SpelledEntry>,
) -> Result<Vec<MethodEntry>, NoMemory>
    ensures { IfOk result (λ list. list.items ≡ map entry_of spelled.items) }
{
    Ok(
        spelled
            .into_iter()
            .map(|spelled| spelled.entry)
            .collect(alloc)?,
    )
}

// The entries, each with the spelling of its name.
fn with_spellings(alloc: Global, entries: Vec<MethodEntry>) -> Result<Vec<SpelledEntry>, NoMemory>
    ensures entries { IfOk result (λ list. map entry_of list.items ≡ entries.items) }
    ensures spellings { IfOk result (λ list. All IsSpelled list.items) }
{
    let mut list = Vec::new(alloc);
    for entry in entries {
        list.push(with_spelling(alloc, entry)?)?;
    }
    Ok(list)
}

fn with_spelling(alloc: Global, entry: MethodEntry) -> Result<SpelledEntry, NoMemory>
    ensures entry { IfOk result (λ spelled. entry_of spelled ≡ entry) }
    ensures spelling { IfOk result IsSpelled }
{
    let spelling = entry.name.spelled(alloc)?;
    Ok(SpelledEntry { spelling, entry })
}
