// What can be asked for.
ghost use Rattle.std.specs.Prelude.{◌≡◌, IfOk};
ghost use Rattle.sj_infos.specs.Once.{FirstsOf};

use indexmap::IndexSet;
use sj_names::{ClassName, FieldName, Member, MethodName, NoMemory};
use std::alloc::Global;
use std::marker::Model;

/// What a form of a body asks for.
#[derive(PartialEq, Eq, Hash)]
pub enum Info {
    /// A new object of the class, by this constructor.
    New(ClassName, MethodName),
    /// The instance of the module class.
    Load(ClassName),
    /// The field of the class, a static one where the mark says so.
    Field(ClassName, FieldName, bool),
    /// The method that stands in the class itself.
    Static(Member),
    /// The method that the class has by resolution.
    Resolved(ClassName, MethodName),
    /// A call on receivers of the class.
    Called(ClassName, MethodName),
    /// A call by a reflective name.
    Reflective(MethodName),
    /// The class that a test, a cast or an array form names.
    Class(ClassName),
    /// An array form, for which `java.lang.Object` is made.
    ArrayForm,
    /// An exception of the class, by its constructor that takes a text.
    Throws(ClassName),
}

impl Drop for Info {
    fn drop(self) {
        match self {
            Info::New(_one, _two) => {}
            Info::Load(_one) => {}
            Info::Field(_one, _two, _) => {}
            Info::Static(_one) => {}
            Info::Resolved(_one, _two) => {}
            Info::Called(_one, _two) => {}
            Info::Reflective(_one) => {}
            Info::Class(_one) => {}
            Info::ArrayForm => {}
            Info::Throws(_one) => {}
        }
    }
}

/// What a body asks for: a contract sees the list.
#[derive(Drop)]
pub struct Infos {
    infos: IndexSet<Info>,
}

impl Model for Infos {
    ghost use Rattle.std.specs.Prelude.{List};
    ghost use Rattle.sj_infos.specs.declared.infos.Info.{Info};

    ghost Value = { List Info };

    ghost view = { λ i. i.infos.keys };
}

impl Infos {
    /// What is asked for, in order.
    pub fn as_slice(&self) -> &[Info]
        ensures { result.now ≡ self.now }
    {
        self.infos.as_slice()
    }
}

// What was asked for, once each.
#[tactic(auto, using(crate::proofs::Firsts::begins))]
pub fn once(alloc: Global, asked: Vec<Info>) -> Result<Infos, NoMemory>
    ensures { IfOk result (λ infos. FirstsOf asked.items infos) }
{
    let mut infos = IndexSet::new(alloc);
    for info in asked {
        infos.insert(info)?;
    }
    Ok(Infos { infos })
}
