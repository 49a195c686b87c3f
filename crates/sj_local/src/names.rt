// Names and types, compared.
ghost use Rattle.std.specs.Prelude.{◌≡◌};
ghost use Rattle.sj_local.specs.Names as names;

use sj_names::{ClassName, INIT, NUMBER, OBJECT, SimpleName};
use sj_trees::IrType;

pub fn is_object(name: &ClassName) -> bool
    ensures { result ≡ names.is_object name.now }
{
    name.text() == OBJECT
}

pub fn is_number(name: &ClassName) -> bool
    ensures { result ≡ names.is_number name.now }
{
    name.text() == NUMBER
}

pub fn is_init(name: &SimpleName) -> bool
    ensures { result ≡ names.is_init name.now }
{
    name.text() == INIT
}

pub fn is_type(one: &IrType, other: &IrType) -> bool
    ensures { result ≡ names.is_same_type one.now other.now }
{
    one.is_same(other)
}

// Whether there is no value of the type.
pub fn is_empty_type(tpe: &IrType) -> bool
    ensures { result ≡ names.is_empty_type tpe.now }
{
    matches!(tpe, IrType::Nothing | IrType::NoType)
}
