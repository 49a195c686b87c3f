// The names that the profile knows by itself.
ghost use Rattle.std.specs.Prelude.{◌≡◌};
ghost use Rattle.sj_names.specs.WellKnown as known;

/// The class at the top of all classes.
pub const OBJECT: &str = "java.lang.Object";

/// The superclass of the hijacked classes of numbers.
pub const NUMBER: &str = "java.lang.Number";

/// The hijacked class of ints; bytes and shorts are ints at run time.
pub const INTEGER: &str = "java.lang.Integer";

/// The simple name of each constructor.
pub const INIT: &str = "<init>";

/// Whether `name` is one of the eight hijacked classes, whose instances are primitive values.
pub fn is_hijacked(name: &str) -> bool
    ensures { result ≡ known.is_hijacked name.now }
{
    name == "java.lang.Void"
        || name == "java.lang.Boolean"
        || name == "java.lang.Character"
        || name == "java.lang.Byte"
        || name == "java.lang.Short"
        || name == "java.lang.Integer"
        || name == "java.lang.Long"
        || name == "java.lang.String"
}
