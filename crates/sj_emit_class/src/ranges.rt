// What the types of the parts of a class say of their values. It is known where a value is read, so each part is passed over once.
ghost use Rattle.std.specs.Prelude.{All, IfSome, map};
ghost use Rattle.sj_emit_class_printing.specs.Fits.{FitsEntry, FitsField, FitParts};
ghost use Rattle.sj_emit_class_parts.specs.Parts.{parts_view};
ghost use Rattle.sj_emit_expr_pieces.specs.Ranges.{AreBytes};

use sj_emit_class_parts::ClassParts;
use sj_emit_class_printing::{name_fits, names_fit, text_fits};
use sj_emit_expr_pieces::{member_fits, method_name_fits};
use sj_names::ClassName;
use sj_trees::FieldDef;
use sj_world::MethodEntry;

/// The names of the parts of a class are texts of bytes.
pub fn parts_fit(parts: &ClassParts<'_>)
    ensures { FitParts (parts_view parts.now) }
{
    name_fits(&parts.class.name);
    superclass_fits(&parts.class.superclass);
    names_fit(parts.ancestors);
    entries_fit(&parts.entries);
    fields_fit(&parts.fields);
    fields_fit(&parts.statics);
}

fn superclass_fits(superclass: &Option<ClassName>)
    ensures { IfSome superclass.now AreBytes }
{
    if let Some(name) = superclass {
        name_fits(name);
    }
}

fn entry_fits(entry: &MethodEntry)
    ensures { FitsEntry entry.now }
{
    method_name_fits(&entry.name);
    member_fits(&entry.target);
}

fn entries_fit(entries: &[&MethodEntry])
    ensures { All FitsEntry (map (λ e. e.now) entries.now) }
{
    for entry in entries {
        entry_fits(entry);
    }
}

fn fields_fit(fields: &[&FieldDef])
    ensures { All FitsField (map (λ f. f.now) fields.now) }
{
    for field in fields {
        text_fits(field.name.text());
    }
}
