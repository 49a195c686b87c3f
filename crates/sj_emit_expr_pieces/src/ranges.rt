// What the types of names say of their bytes. It is known where a value is read.
ghost use Rattle.std.specs.Prelude.{All, IfSome};
ghost use Rattle.sj_emit_expr_pieces.specs.Ranges.{AreBytes, FitsBase, FitsReference, FitsMethodName, FitsMember};

use sj_names::{BaseRef, Member, MethodName, TypeRef};

fn text_fits(text: &str)
    ensures { AreBytes text.now }
{}

fn base_fits(base: &BaseRef)
    ensures { FitsBase base.now }
{
    if let BaseRef::Class(name) = base {
        text_fits(name.text());
    }
}

fn reference_fits(reference: &TypeRef)
    ensures { FitsReference reference.now }
{
    match reference {
        TypeRef::Class(name) => text_fits(name.text()),
        TypeRef::Array(array) => base_fits(&array.base),
        _ => {}
    }
}

fn references_fit(references: &[TypeRef])
    ensures { All FitsReference references.now }
{
    for reference in references {
        reference_fits(reference);
    }
}

fn result_fits(reference: &Option<TypeRef>)
    ensures { IfSome reference.now FitsReference }
{
    if let Some(reference) = reference {
        reference_fits(reference);
    }
}

/// The parts of the name of a method are texts of bytes.
pub fn method_name_fits(method: &MethodName)
    ensures { FitsMethodName method.now }
{
    text_fits(method.simple.text());
    references_fit(method.params.as_slice());
    result_fits(&method.result);
}

/// The names of a member are texts of bytes.
pub fn member_fits(member: &Member)
    ensures { FitsMember member.now }
{
    text_fits(member.class.text());
    method_name_fits(&member.method);
}
