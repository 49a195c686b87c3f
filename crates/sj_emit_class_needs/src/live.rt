// The classes that are made, and their superclasses.
ghost use Rattle.std.specs.Prelude.{◌≡◌, OnOk};
ghost use Rattle.sj_baselink.specs.Steps.{Puts, OfOne};
ghost use Rattle.sj_emit_class_needs.specs.Needs.{IsLiveBy};
ghost use Rattle.sj_emit_class_needs.specs.declared.needs.ClassNeed.{ClassNeed};
ghost use Rattle.sj_emit_class_needs.specs.declared.needs.ClassNeed.TheVariants.{Live};

use crate::needs::{ClassNeed, put};
use indexmap::IndexSet;
use sj_names::{ClassName, NoMemory};
use sj_world::World;

/// Puts that a class that is made and its superclasses are live.
pub fn put_live(
    w: &World,
    class: &ClassName,
    needs: &mut IndexSet<ClassNeed>,
) -> Result<(), NoMemory>
    ensures { OnOk result (Puts (IsLiveBy w.now class.now) needs.old.keys needs.new.keys) }
{
    match w.chain(class) {
        Some(chain) => put_each(chain, needs),
        None => put_one(class, needs),
    }
}

fn put_each(names: &[ClassName], needs: &mut IndexSet<ClassNeed>) -> Result<(), NoMemory>
    ensures { OnOk result (Puts (OfOne names.now (λ c n. Live c ≡ n)) needs.old.keys needs.new.keys) }
{
    for name in names {
        put_one(name, needs)?;
    }
    Ok(())
}

fn put_one(class: &ClassName, needs: &mut IndexSet<ClassNeed>) -> Result<(), NoMemory>
    ensures { OnOk result (Puts (λ n. Live class.now ≡ n) needs.old.keys needs.new.keys) }
{
    let class = class.copied()?;
    put(ClassNeed::Live(class), needs)
}
