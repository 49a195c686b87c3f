// The classes that are made, and their superclasses.
ghost use Rattle.std.specs.Prelude.{IfOk, OnOk, Contains, ◌↔◌};
ghost use Rattle.sj_world.specs.Ancestors.{IsOnChain};
ghost use Rattle.sj_world.specs.Known.{Name};
ghost use Rattle.sj_baselink.specs.Steps.{Puts, OfOne};

use crate::made::put_class;
use indexmap::IndexSet;
use sj_names::{ClassName, NoMemory};
use sj_world::World;
use std::alloc::Global;

/// The classes on the chains of these classes, each once.
pub fn live_classes(
    alloc: Global,
    w: &World,
    made: &[ClassName],
) -> Result<IndexSet<ClassName>, NoMemory>
    ensures { IfOk result (λ live. (c : Name) → Contains live.keys c ↔ OfOne made.now (IsOnChain w.now) c) }
{
    let mut live = IndexSet::new(alloc);
    for class in made {
        put_chain(w, class, &mut live)?;
    }
    Ok(live)
}

// Puts the classes on the chain of the class.
fn put_chain(w: &World, class: &ClassName, live: &mut IndexSet<ClassName>) -> Result<(), NoMemory>
    ensures { OnOk result (Puts (IsOnChain w.now class.now) live.old.keys live.new.keys) }
{
    match w.chain(class) {
        Some(chain) => put_classes(chain, live),
        None => put_class(class, live),
    }
}

fn put_classes(names: &[ClassName], classes: &mut IndexSet<ClassName>) -> Result<(), NoMemory>
    ensures { OnOk result (Puts (Contains names.now) classes.old.keys classes.new.keys) }
{
    for name in names {
        put_class(name, classes)?;
    }
    Ok(())
}
