// The static fields of a class that are reached.
ghost use Rattle.std.specs.Prelude.{◌≡◌, ◌↔◌, ◌++◌, ◌∷◌, [], map, List, IfOk, OnOk, IsTrue, Contains, true};
ghost use Rattle.sj_emit_class_needs.specs.Needs.{AreNeeds};
ghost use Rattle.sj_emit_class_spec.specs.Classes.{AreReached, AreStatics};
ghost use Rattle.sj_trees.specs.declared.classes.FieldDef.{FieldDef as AnyField};
ghost use Rattle.sj_world.specs.declared.facts.Fact.TheVariants.{NeededField};
ghost use Rattle.sj_emit_class.specs.Statics.{IsReachedStatic};

use crate::fields::in_order;
use crate::needed::is_among;
use indexmap::IndexSet;
use sj_emit_class_needs::ClassNeed;
use sj_names::{ClassName, NoMemory};
use sj_trees::FieldDef;
use sj_world::LinkedWorld;
use std::alloc::Global;

/// The static ones of the fields that are reached, in the order of their names.
pub fn statics_of<'w>(
    alloc: Global,
    w: &LinkedWorld,
    needs: &IndexSet<ClassNeed>,
    class: &ClassName,
    fields: &'w [FieldDef],
) -> Result<Vec<&'w FieldDef>, NoMemory>
    requires { AreNeeds w.now.world w.now.facts needs.now.keys }
    ensures { IfOk result (λ list. AreStatics w.now.facts class.now fields.now (map (λ f. f.now) list.items)) }
{
    let reached = reached_among(alloc, w, needs, class, fields)?;
    Ok(in_order(reached))
}

fn reached_among<'w>(
    alloc: Global,
    w: &LinkedWorld,
    needs: &IndexSet<ClassNeed>,
    class: &ClassName,
    fields: &'w [FieldDef],
) -> Result<Vec<&'w FieldDef>, NoMemory>
    requires { AreNeeds w.now.world w.now.facts needs.now.keys }
    ensures { IfOk result (λ list. AreReached w.now.facts class.now fields.now (map (λ f. f.now) list.items)) }
{
    let mut reached = Vec::new(alloc);
    for field in fields {
        put_reached(w, needs, class, field, &mut reached)?;
    }
    Ok(reached)
}

// Puts the field behind others, if it is static and reached.
fn put_reached<'w>(
    w: &LinkedWorld,
    needs: &IndexSet<ClassNeed>,
    class: &ClassName,
    field: &'w FieldDef,
    reached: &mut Vec<&'w FieldDef>,
) -> Result<(), NoMemory>
    requires { AreNeeds w.now.world w.now.facts needs.now.keys }
    ensures { OnOk result ((fs : List AnyField) → AreReached w.now.facts class.now fs (map (λ f. f.now) reached.old.items) → AreReached w.now.facts class.now (fs ++ field.now ∷ []) (map (λ f. f.now) reached.new.items)) }
{
    if is_reached(w, needs, class, field)? {
        reached.push(field)?;
    }
    Ok(())
}

fn is_reached(
    w: &LinkedWorld,
    needs: &IndexSet<ClassNeed>,
    class: &ClassName,
    field: &FieldDef,
) -> Result<bool, NoMemory>
    requires { AreNeeds w.now.world w.now.facts needs.now.keys }
    ensures { IfOk result (λ yes. IsTrue yes ↔ IsReachedStatic w.now.facts class.now field.now) }
{
    if field.is_static {
        is_needed(w, needs, class, field)
    } else {
        Ok(false)
    }
}

fn is_needed(
    w: &LinkedWorld,
    needs: &IndexSet<ClassNeed>,
    class: &ClassName,
    field: &FieldDef,
) -> Result<bool, NoMemory>
    requires { AreNeeds w.now.world w.now.facts needs.now.keys }
    ensures { IfOk result (λ yes. IsTrue yes ↔ Contains w.now.facts (NeededField class.now field.now.name true)) }
{
    let class = class.copied()?;
    let name = field.name.copied()?;
    Ok(is_among(needs, &ClassNeed::Static(class, name)))
}
