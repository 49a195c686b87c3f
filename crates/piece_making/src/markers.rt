// What the running code knows of a class: its marker and those of the classes above it.
ghost use Rattle.std.specs.Prelude.{◌≡◌, map, IfOk};
ghost use Rattle.js_tree.specs.Views.{property_view};
ghost use Rattle.sj_emit_help_spec.specs.Helpers as rules;
ghost use Rattle.piece_making.specs.Made.{Makes};

use crate::expressions::text_of;
use js_tree::{JsExpr, ObjectProperty};
use sj_mangling::{ClassBinding, class_binding};
use sj_names::{ClassName, NoMemory, Text};
use std::alloc::Global;

/// `{s: "i_C", i_A: 1, ..}`
pub fn constants(
    alloc: Global,
    class: &ClassName,
    ancestors: &[ClassName],
) -> Result<Vec<ObjectProperty>, NoMemory>
    ensures { Makes (λ ps. map property_view ps.items) result (rules.constants class.now ancestors.now) }
{
    let own = own_marker(alloc, class)?;
    let mut properties = vec![in alloc; own]?;
    for ancestor in ancestors {
        properties.push(marker_property(alloc, ancestor)?)?;
    }
    Ok(properties)
}

// `s: "i_C"`
fn own_marker(alloc: Global, class: &ClassName) -> Result<ObjectProperty, NoMemory>
    ensures { IfOk result (λ p. property_view p ≡ rules.own_marker class.now) }
{
    let value = text_of(alloc, class_binding(alloc, ClassBinding::Marker, class))?;
    Ok(ObjectProperty {
        name: Text::from_str(alloc, "s")?,
        value,
    })
}

// `i_A: 1`
fn marker_property(alloc: Global, ancestor: &ClassName) -> Result<ObjectProperty, NoMemory>
    ensures { IfOk result (λ p. property_view p ≡ rules.marker_property ancestor.now) }
{
    let name = class_binding(alloc, ClassBinding::Marker, ancestor)?;
    Ok(ObjectProperty {
        name,
        value: JsExpr::Number(1),
    })
}
