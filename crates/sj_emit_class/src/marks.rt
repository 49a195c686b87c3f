// What there is of a class.
ghost use Rattle.std.specs.Prelude.{IfOk};
ghost use Rattle.sj_emit_class_needs.specs.Needs.{AreNeeds};
ghost use Rattle.sj_emit_class.specs.Marks.{AreMarks};

use crate::needed::is_among;
use indexmap::IndexSet;
use sj_emit_class_needs::ClassNeed;
use sj_names::{ClassName, NoMemory};
use sj_world::LinkedWorld;

/// Whether a class is live, the base of an array form, loaded, stored, tested and cast to.
#[derive(Clone, Copy)]
pub struct Marks {
    pub is_live: bool,
    pub is_base: bool,
    pub is_loaded: bool,
    pub is_stored: bool,
    pub is_tested: bool,
    pub is_cast: bool,
}

/// What there is of the class, by what is needed.
pub fn marks_of(
    w: &LinkedWorld,
    needs: &IndexSet<ClassNeed>,
    class: &ClassName,
) -> Result<Marks, NoMemory>
    requires { AreNeeds w.now.world w.now.facts needs.now.keys }
    ensures { IfOk result (AreMarks w.now.world w.now.facts class.now) }
{
    Ok(Marks {
        is_live: is_among(needs, &ClassNeed::Live(class.copied()?)),
        is_base: is_among(needs, &ClassNeed::Base(class.copied()?)),
        is_loaded: is_among(needs, &ClassNeed::Load(class.copied()?)),
        is_stored: is_among(needs, &ClassNeed::Store(class.copied()?)),
        is_tested: is_among(needs, &ClassNeed::Test(class.copied()?)),
        is_cast: is_among(needs, &ClassNeed::Cast(class.copied()?)),
    })
}
