// What the needs of classes are, need by need.
ghost use Rattle.std.specs.Prelude.{◌↔◌, true, List, Contains};
ghost use Rattle.sj_baselink_spec.specs.Entries.{IsLive};
ghost use Rattle.sj_emit_class_spec.specs.Classes.{HasForm};
ghost use Rattle.sj_infos.specs.declared.forms.BodyForm.TheVariants as forms;
ghost use Rattle.sj_world.specs.Known.{Name, Classes};
ghost use Rattle.sj_world.specs.declared.facts.Fact.{Fact};
ghost use Rattle.sj_world.specs.declared.facts.Fact.TheVariants.{NeededField};
ghost use Rattle.sj_emit_class_needs.specs.Needs.{IsNeed};
ghost use Rattle.sj_emit_class_needs.specs.declared.needs.ClassNeed.TheVariants as needs;

/// A class needs a test, a cast, its constants as a base, its cell loaded or stored exactly where a body that is needed has that form. It
/// is live exactly where it is on the chain of a class that is made, and its static field is needed exactly where that is a fact.
pub fn needs_are_these()
    ensures test { (w : Classes) (known : List Fact) (c : Name) → IsNeed w known (needs.Test c) ↔ HasForm w known (forms.Test c) }
    ensures cast { (w : Classes) (known : List Fact) (c : Name) → IsNeed w known (needs.Cast c) ↔ HasForm w known (forms.Cast c) }
    ensures base { (w : Classes) (known : List Fact) (c : Name) → IsNeed w known (needs.Base c) ↔ HasForm w known (forms.Base c) }
    ensures load { (w : Classes) (known : List Fact) (c : Name) → IsNeed w known (needs.Load c) ↔ HasForm w known (forms.Load c) }
    ensures store { (w : Classes) (known : List Fact) (c : Name) → IsNeed w known (needs.Store c) ↔ HasForm w known (forms.Store c) }
    ensures live { (w : Classes) (known : List Fact) (c : Name) → IsNeed w known (needs.Live c) ↔ IsLive w known c }
    ensures field { (w : Classes) (known : List Fact) (c f : Name) → IsNeed w known (needs.Static c f) ↔ Contains known (NeededField c f true) }
{}
