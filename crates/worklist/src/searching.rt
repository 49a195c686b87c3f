// The search.
ghost use Rattle.std.specs.Prelude.{◌≡◌, ◌↔◌, ◌∷◌, [], List, Contains, IfOk, OnOk};
ghost use Rattle.indexmap.specs.IndexSet.{insert_all, IsUnique};
ghost use Rattle.worklist.specs.Paths.{Path, Leads, IsReached};
ghost use Rattle.worklist.specs.Search.{IsSearched};

use crate::Key;
use indexmap::IndexSet;
use sj_names::NoMemory;
use std::alloc::Global;

/// What leads from a key to others.
pub trait Step<K: Key> {
    ghost next: { Self → K → List K };

    /// Puts what the key leads to behind the keys that are found, as far as it isn't there yet.
    fn add_next(&self, key: &K, found: &mut IndexSet<K>) -> Result<(), NoMemory>
        ensures { OnOk result (found.new.keys ≡ insert_all K.eq found.old.keys (next self.now key.now)) };
}

/// Adds what the keys lead to, what that leads to, and so on: then exactly those keys are found to which paths lead from the
/// first ones, in the order in which they were found.
pub fn search<K: Key, S: Step<K>>(step: &S, found: &mut IndexSet<K>) -> Result<(), NoMemory>
    ensures reached { OnOk result ((key : K) → Contains found.new.keys key ↔ IsReached (S.next step.now) found.old.keys key) }
    ensures in_order { OnOk result (IsSearched K.eq (S.next step.now) found.old.keys found.new.keys) }
    ensures once { OnOk result (IsUnique K.eq found.new) }
{
    let mut next = 0;
    while next < found.len() {
        let key = found[next].again()?;
        step.add_next(&key, found)?;
        next += 1;
    }
    Ok(())
}

/// The keys to which paths lead from `first`, in the order in which they are found.
pub fn search_from<K: Key, S: Step<K>>(
    alloc: Global,
    step: &S,
    first: K,
) -> Result<IndexSet<K>, NoMemory>
    ensures reached { IfOk result (λ found. (key : K) → Contains found.keys key ↔ Path (Leads (S.next step.now)) first key) }
    ensures in_order { IfOk result (λ found. IsSearched K.eq (S.next step.now) (first ∷ []) found.keys) }
    ensures once { IfOk result (IsUnique K.eq) }
{
    let mut found = IndexSet::new(alloc);
    found.insert(first)?;
    search(step, &mut found)?;
    Ok(found)
}

/// Puts keys behind those that are found, as far as they aren't there yet.
pub fn add_all<K: Key>(keys: &[K], found: &mut IndexSet<K>) -> Result<(), NoMemory>
    ensures { OnOk result (found.new.keys ≡ insert_all K.eq found.old.keys keys.now) }
{
    for key in keys {
        found.insert(key.again()?)?;
    }
    Ok(())
}
