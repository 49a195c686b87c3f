// What is known of the classes of a folder.
ghost use Rattle.std.specs.Prelude.{◌≡◌, ◌↔◌, IfOk, OnOk, IsTrue, Contains};
ghost use Rattle.sj_world.specs.Facts.{AreBodies, PutsBody};

use indexmap::IndexSet;
use sj_names::{ClassName, FieldName, Member, MethodName, NoMemory};
use std::alloc::Global;

/// What is known of the classes of a folder.
#[derive(PartialEq, Eq, Hash)]
pub enum Fact {
    /// The class is needed.
    Needed(ClassName),
    /// Instances of the class are made.
    Made(ClassName),
    /// The cell of the module class is used.
    CellUsed(ClassName),
    /// The field of the class is needed, a static one where the mark says so.
    NeededField(ClassName, FieldName, bool),
    /// The body of the method is needed.
    Body(Member),
    /// The method is called on receivers of the class.
    Called(ClassName, MethodName),
}

// By hand, so that a proof treats all that are let go of alike.
impl Drop for Fact {
    fn drop(self) {
        match self {
            Fact::Needed(_class) => {}
            Fact::Made(_class) => {}
            Fact::CellUsed(_class) => {}
            Fact::NeededField(_class, _field, _) => {}
            Fact::Body(_member) => {}
            Fact::Called(_class, _method) => {}
        }
    }
}

impl Fact {
    /// The same fact once more. `NoMemory` alone is an error.
    pub fn copied(&self) -> Result<Fact, NoMemory>
        ensures { IfOk result (λ f. f ≡ self.now) }
    {
        Ok(match self {
            Fact::Needed(class) => Fact::Needed(class.copied()?),
            Fact::Made(class) => Fact::Made(class.copied()?),
            Fact::CellUsed(class) => Fact::CellUsed(class.copied()?),
            Fact::NeededField(class, field, is_static) => {
                Fact::NeededField(class.copied()?, field.copied()?, *is_static)
            }
            Fact::Body(member) => Fact::Body(member.copied()?),
            Fact::Called(class, method) => Fact::Called(class.copied()?, method.copied()?),
        })
    }
}

// The bodies that are needed by these facts, each once.
pub fn bodies_of(alloc: Global, facts: &[Fact]) -> Result<IndexSet<Member>, NoMemory>
    ensures { IfOk result (λ bodies. AreBodies facts.now bodies.keys) }
{
    let mut bodies = IndexSet::new(alloc);
    for fact in facts {
        put_body(fact, &mut bodies)?;
    }
    Ok(bodies)
}

// Puts the body that is needed by the fact, if one is.
fn put_body(fact: &Fact, bodies: &mut IndexSet<Member>) -> Result<(), NoMemory>
    ensures { OnOk result (PutsBody fact.now bodies.old.keys bodies.new.keys) }
{
    match fact {
        Fact::Body(member) => {
            bodies.insert(member.copied()?)?;
            Ok(())
        }
        _ => Ok(()),
    }
}

// Whether the member is one of these.
pub fn has_member(members: &IndexSet<Member>, member: &Member) -> bool
    ensures { IsTrue result ↔ Contains members.now.keys member.now }
{
    members.contains(member)
}
