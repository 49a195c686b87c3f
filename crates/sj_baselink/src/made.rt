// The classes of which instances are made.
ghost use Rattle.std.specs.Prelude.{◌≡◌, IfOk, OnOk};
ghost use Rattle.sj_world.specs.declared.facts.Fact.TheVariants.{Made};
ghost use Rattle.sj_baselink.specs.Steps.{Puts, AreMade};

use indexmap::IndexSet;
use sj_names::{ClassName, NoMemory};
use sj_world::Fact;
use std::alloc::Global;

/// The classes that are made, each once.
pub fn made_classes(alloc: Global, facts: &[Fact]) -> Result<IndexSet<ClassName>, NoMemory>
    ensures { IfOk result (λ made. AreMade facts.now made.keys) }
{
    let mut made = IndexSet::new(alloc);
    for fact in facts {
        put_made(fact, &mut made)?;
    }
    Ok(made)
}

// Puts the class that the fact makes, if it makes one.
fn put_made(fact: &Fact, made: &mut IndexSet<ClassName>) -> Result<(), NoMemory>
    ensures { OnOk result (Puts (λ c. fact.now ≡ Made c) made.old.keys made.new.keys) }
{
    match fact {
        Fact::Made(class) => put_class(class, made),
        _ => Ok(()),
    }
}

/// Puts the class, unless it is there.
pub fn put_class(class: &ClassName, classes: &mut IndexSet<ClassName>) -> Result<(), NoMemory>
    ensures { OnOk result (Puts (λ c. class.now ≡ c) classes.old.keys classes.new.keys) }
{
    classes.insert(class.copied()?)?;
    Ok(())
}
