// The class of a receiver, and instances of classes.
ghost use Rattle.std.specs.Prelude.{◌≡◌, ◌↔◌, IsTrue, option_map};
ghost use Rattle.sj_world.specs.Calls as calls;

use crate::World;
use sj_names::{ClassName, OBJECT};
use sj_trees::IrType;

/// The class in which a call on a receiver of this type is looked up: of a class type that class, of any and of an array type
/// `java.lang.Object`, of a primitive type its hijacked class. Null, nothing and no type have none.
pub fn receiver_class(tpe: &IrType) -> Option<&str>
    ensures { option_map (λ name. name.now) result ≡ calls.receiver_class tpe.now }
{
    match tpe {
        IrType::Any | IrType::Array(_) => Some(OBJECT),
        IrType::Class(name) => Some(name.text()),
        IrType::Undefined => Some("java.lang.Void"),
        IrType::Boolean => Some("java.lang.Boolean"),
        IrType::Char => Some("java.lang.Character"),
        IrType::Byte => Some("java.lang.Byte"),
        IrType::Short => Some("java.lang.Short"),
        IrType::Int => Some("java.lang.Integer"),
        IrType::Long => Some("java.lang.Long"),
        IrType::String => Some("java.lang.String"),
        IrType::Null | IrType::Nothing | IrType::NoType => None,
    }
}

impl World {
    /// Whether a value of the class `of`, and a number where it is one, is an instance of `class`: where `class` is an ancestor of
    /// `of`, and for a number in the range of bytes or of shorts also where `class` is `java.lang.Byte` or `java.lang.Short`.
    pub fn is_instance(&self, of: &ClassName, number: Option<i32>, class: &ClassName) -> bool
        ensures { IsTrue result ↔ calls.IsInstance self.now of.now number class.now }
    {
        self.is_ancestor(of, class) || is_small(number, class.text())
    }
}

// Whether a number is in the range that this class has.
fn is_small(number: Option<i32>, class: &str) -> bool
    ensures { IsTrue result ↔ calls.IsSmall number class.now }
{
    match number {
        Some(number) => is_byte(number, class) || is_short(number, class),
        None => false,
    }
}

fn is_byte(number: i32, class: &str) -> bool
    ensures { IsTrue result ↔ calls.IsByte number class.now }
{
    class == "java.lang.Byte" && i8::try_from(number).is_ok()
}

fn is_short(number: i32, class: &str) -> bool
    ensures { IsTrue result ↔ calls.IsShort number class.now }
{
    class == "java.lang.Short" && i16::try_from(number).is_ok()
}
