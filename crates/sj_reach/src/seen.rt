// What has been gone through, as far as more follows from it together with a later fact.
ghost use Rattle.std.specs.Prelude.{OnOk};
ghost use Rattle.sj_reach.specs.Seen as specs;

use class_lists::Lists;
use indexmap::IndexSet;
use sj_infos::Info;
use sj_names::{ClassName, MethodName, NoMemory};
use sj_world::World;
use std::alloc::Global;

/// The classes that are made, also under each of their ancestors; the methods that are called, under the classes on which they are
/// called; the names of reflective calls.
#[derive(Drop)]
pub struct Seen {
    pub made: Vec<ClassName>,
    pub below: Lists<ClassName>,
    pub called: Lists<MethodName>,
    pub reflective: IndexSet<MethodName>,
}

impl Seen {
    /// Nothing has been gone through.
    pub fn new(alloc: Global) -> Seen
        ensures { specs.IsEmpty result }
    {
        Seen {
            made: Vec::new(alloc),
            below: Lists::new(alloc),
            called: Lists::new(alloc),
            reflective: IndexSet::new(alloc),
        }
    }

    /// Instances of the class are made.
    pub fn see_made(
        &mut self,
        alloc: Global,
        world: &World,
        class: &ClassName,
    ) -> Result<(), NoMemory>
        ensures { OnOk result (specs.SeesMade world.now class.now self.old self.new) }
    {
        world.put_below(alloc, class, &mut self.below)?;
        self.made.push(class.copied()?)?;
        Ok(())
    }

    /// The method is called on receivers of the class.
    pub fn see_called(
        &mut self,
        alloc: Global,
        class: &ClassName,
        method: &MethodName,
    ) -> Result<(), NoMemory>
        ensures { OnOk result (specs.SeesCalled class.now method.now self.old self.new) }
    {
        self.called.put(alloc, class, method.copied()?)
    }

    /// A body asks for these.
    pub fn see_infos(&mut self, infos: &[Info]) -> Result<(), NoMemory>
        ensures { OnOk result (specs.SeesInfos infos.now self.old self.new) }
    {
        for info in infos {
            self.see_info(info)?;
        }
        Ok(())
    }

    fn see_info(&mut self, info: &Info) -> Result<(), NoMemory>
        ensures { OnOk result (specs.SeesInfo info.now self.old self.new) }
    {
        match info {
            Info::Reflective(proxy) => self.see_reflective(proxy),
            _ => Ok(()),
        }
    }

    fn see_reflective(&mut self, proxy: &MethodName) -> Result<(), NoMemory>
        ensures { OnOk result (specs.SeesReflective proxy.now self.old self.new) }
    {
        self.reflective.insert(proxy.copied()?)?;
        Ok(())
    }
}
