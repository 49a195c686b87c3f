// What the types of names say of their values. It is known where a value is read.
ghost use Rattle.std.specs.Prelude.{All};
ghost use Rattle.sj_emit_expr_pieces.specs.Ranges.{AreBytes};

use sj_names::ClassName;

/// A text is one of bytes.
pub fn text_fits(text: &str)
    ensures { AreBytes text.now }
{}

/// The name of a class is a text of bytes.
pub fn name_fits(name: &ClassName)
    ensures { AreBytes name.now }
{
    text_fits(name.text());
}

/// The names of classes are texts of bytes.
pub fn names_fit(names: &[ClassName])
    ensures { All AreBytes names.now }
{
    for name in names {
        name_fits(name);
    }
}
