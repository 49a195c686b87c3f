// Fields in the order of their names.
ghost use Rattle.std.specs.Prelude.{◌≡◌, map, IfOk};
ghost use Rattle.std.specs.List.{filter};
ghost use Rattle.sj_emit_class_spec.specs.Classes.{AreSorted, is_own};

use sj_names::NoMemory;
use sj_trees::FieldDef;
use std::alloc::Global;

/// The fields of instances, in the order of their names.
pub fn own_fields<'w>(alloc: Global, fields: &'w [FieldDef]) -> Result<Vec<&'w FieldDef>, NoMemory>
    ensures { IfOk result (λ list. AreSorted (filter is_own fields.now) (map (λ f. f.now) list.items)) }
{
    let own = of_instances(alloc, fields)?;
    Ok(in_order(own))
}

fn of_instances<'w>(alloc: Global, fields: &'w [FieldDef]) -> Result<Vec<&'w FieldDef>, NoMemory>
    ensures { IfOk result (λ list. map (λ f. f.now) list.items ≡ filter is_own fields.now) }
{
    let mut own = Vec::new(alloc);
    for field in fields {
        if !field.is_static {
            own.push(field)?;
        }
    }
    Ok(own)
}

/// The fields in the order of their names.
pub fn in_order<'w>(mut fields: Vec<&'w FieldDef>) -> Vec<&'w FieldDef>
    ensures { AreSorted (map (λ f. f.now) fields.entry.items) (map (λ f. f.now) result.items) }
{
    fields.sort_unstable_by(|one, other| one.name.cmp(&other.name));
    fields
}
