// The labels around a tree.
ghost use Rattle.std.specs.Prelude.{◌≡◌, option_map};
ghost use Rattle.sj_typing_spec.specs.Labels as around;

use sj_names::LabelName;
use sj_trees::IrType;
use sj_typing_spec::Label;

/// The type of the innermost label of this name; the outermost stands first.
pub fn type_of_label<'l>(labels: &'l [Label], name: &LabelName) -> Option<&'l IrType>
    ensures { option_map (λ t. t.now) result ≡ around.type_of_label labels.now name.now }
{
    let mut found = None;
    for label in labels {
        if label.name.is_same(name) {
            found = Some(&label.tpe);
        }
    }
    found
}
