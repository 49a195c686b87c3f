// What the classes of a linked world need.
ghost use Rattle.std.specs.Prelude.{◌≡◌, IfOk, OnOk};
ghost use Rattle.sj_baselink.specs.Steps.{Puts};
ghost use Rattle.sj_emit_class_needs.specs.Needs.{AreNeeds, IsNeedBy, IsStaticBy};

use crate::forms::put_forms_of;
use crate::live::put_live;
use indexmap::IndexSet;
use sj_names::{ClassName, FieldName, NoMemory};
use sj_world::{Fact, LinkedWorld, World};
use std::alloc::Global;

/// Code that a class needs.
#[derive(PartialEq, Eq, Hash)]
pub enum ClassNeed {
    /// A body that is needed tests whether a value is of the class.
    Test(ClassName),
    /// One casts to the class.
    Cast(ClassName),
    /// One has the class as the base of an array.
    Base(ClassName),
    /// One loads the module class.
    Load(ClassName),
    /// One stores the module class.
    Store(ClassName),
    /// The class is made, or is a superclass of one that is.
    Live(ClassName),
    /// The static field of the class is needed.
    Static(ClassName, FieldName),
}

impl Drop for ClassNeed {
    fn drop(self) {
        match self {
            ClassNeed::Test(_class) => {}
            ClassNeed::Cast(_class) => {}
            ClassNeed::Base(_class) => {}
            ClassNeed::Load(_class) => {}
            ClassNeed::Store(_class) => {}
            ClassNeed::Live(_class) => {}
            ClassNeed::Static(_class, _field) => {}
        }
    }
}

/// What the classes of the world need, each once.
pub fn needs_of(alloc: Global, w: &LinkedWorld) -> Result<IndexSet<ClassNeed>, NoMemory>
    ensures { IfOk result (λ needs. AreNeeds w.now.world w.now.facts needs.keys) }
{
    needs_by(alloc, w.world(), w.facts())
}

fn needs_by(alloc: Global, w: &World, facts: &[Fact]) -> Result<IndexSet<ClassNeed>, NoMemory>
    ensures { IfOk result (λ needs. AreNeeds w.now facts.now needs.keys) }
{
    let mut needs = IndexSet::new(alloc);
    for fact in facts {
        put_needs(alloc, w, fact, &mut needs)?;
    }
    Ok(needs)
}

fn put_needs(
    alloc: Global,
    w: &World,
    fact: &Fact,
    needs: &mut IndexSet<ClassNeed>,
) -> Result<(), NoMemory>
    ensures { OnOk result (Puts (IsNeedBy w.now fact.now) needs.old.keys needs.new.keys) }
{
    match fact {
        Fact::Body(member) => put_forms_of(alloc, w, member, needs),
        Fact::NeededField(class, field, is_static) => put_field(class, field, *is_static, needs),
        Fact::Made(class) => put_live(w, class, needs),
        Fact::Needed(_) => Ok(()),
        Fact::CellUsed(_) => Ok(()),
        Fact::Called(_, _) => Ok(()),
    }
}

fn put_field(
    class: &ClassName,
    field: &FieldName,
    is_static: bool,
    needs: &mut IndexSet<ClassNeed>,
) -> Result<(), NoMemory>
    ensures { OnOk result (Puts (IsStaticBy class.now field.now is_static) needs.old.keys needs.new.keys) }
{
    if is_static {
        put_static(class, field, needs)
    } else {
        Ok(())
    }
}

fn put_static(
    class: &ClassName,
    field: &FieldName,
    needs: &mut IndexSet<ClassNeed>,
) -> Result<(), NoMemory>
    ensures { OnOk result (Puts (λ n. ClassNeed.Static class.now field.now ≡ n) needs.old.keys needs.new.keys) }
{
    let class = class.copied()?;
    let field = field.copied()?;
    put(ClassNeed::Static(class, field), needs)
}

/// Puts the need, unless it is there.
pub fn put(need: ClassNeed, needs: &mut IndexSet<ClassNeed>) -> Result<(), NoMemory>
    ensures { OnOk result (Puts (λ n. need ≡ n) needs.old.keys needs.new.keys) }
{
    needs.insert(need)?;
    Ok(())
}
