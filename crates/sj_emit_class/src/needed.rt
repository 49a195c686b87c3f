// Whether code is needed.
ghost use Rattle.std.specs.Prelude.{◌↔◌, IsTrue, Contains};

use indexmap::IndexSet;
use sj_emit_class_needs::ClassNeed;

/// Whether the need is among these.
pub fn is_among(needs: &IndexSet<ClassNeed>, need: &ClassNeed) -> bool
    ensures { IsTrue result ↔ Contains needs.now.keys need.now }
{
    needs.contains(need)
}
