// Which type is a subtype of which.
ghost use Rattle.std.specs.Prelude.{◌≡◌, ◌↔◌, ◌⊎◌, IsTrue, true, Contains};
ghost use Rattle.std.specs.Ordering.{nat_cmp};
ghost use Rattle.std.specs.Cmp.Lexicographic.{slice_cmp};
ghost use Rattle.std.specs.List.Sorted.{IsSorted};
ghost use Rattle.sj_world.specs.Known as known;
ghost use Rattle.sj_world.specs.Ancestors.{IsAncestor};
ghost use Rattle.sj_world.specs.Subtypes.{IsSub, IsSubBase};
ghost use Rattle.sj_world.specs.Under.{IsUnder, IsUnderClass, IsUnderArray, IsClassUnder, AreAlike, IsDeeper};

use crate::World;
use sj_names::{ArrayRef, BaseRef, ClassName, OBJECT};
use sj_trees::IrType;

impl World {
    /// Whether one type is a subtype of another.
    pub fn is_sub(&self, sub: &IrType, above: &IrType) -> bool
        ensures { IsTrue result ↔ IsSub self.now sub.now above.now }
    {
        if sub.is_same(above) {
            return true;
        }
        match sub {
            IrType::Nothing => true,
            _ => self.is_under(sub, above),
        }
    }

    /// Whether a class is an ancestor of another.
    pub fn is_ancestor(&self, below: &ClassName, above: &ClassName) -> bool
        ensures { IsTrue result ↔ IsAncestor self.now below.now above.now }
    {
        match self.ancestors(below) {
            Some(names) => stands_in(names, above),
            None => false,
        }
    }

    fn is_under(&self, sub: &IrType, above: &IrType) -> bool
        ensures { IsTrue result ↔ IsUnder self.now sub.now above.now }
    {
        match above {
            IrType::Any => !matches!(sub, IrType::NoType),
            IrType::Class(name) => self.is_under_class(sub, name),
            IrType::Array(array) => self.is_under_array(sub, array),
            _ => false,
        }
    }

    fn is_under_class(&self, sub: &IrType, above: &ClassName) -> bool
        ensures { IsTrue result ↔ IsUnderClass self.now sub.now above.now }
    {
        match sub {
            IrType::Null => true,
            IrType::Class(name) => self.is_ancestor(name, above),
            IrType::Undefined => self.is_hijacked_under("java.lang.Void", above),
            IrType::Boolean => self.is_hijacked_under("java.lang.Boolean", above),
            IrType::Char => self.is_hijacked_under("java.lang.Character", above),
            IrType::Byte => self.is_hijacked_under("java.lang.Byte", above),
            IrType::Short => self.is_hijacked_under("java.lang.Short", above),
            IrType::Int => self.is_hijacked_under("java.lang.Integer", above),
            IrType::Long => self.is_hijacked_under("java.lang.Long", above),
            IrType::String => self.is_hijacked_under("java.lang.String", above),
            _ => false,
        }
    }

    fn is_hijacked_under(&self, below: &str, above: &ClassName) -> bool
        requires { known.is_hijacked below.now ≡ true }
        ensures { IsTrue result ↔ IsAncestor self.now below.now above.now }
    {
        match self.hijacked_name(below) {
            Some(name) => self.is_ancestor(name, above),
            None => false,
        }
    }

    fn is_under_array(&self, sub: &IrType, above: &ArrayRef) -> bool
        ensures { IsTrue result ↔ IsUnderArray self.now sub.now above.now }
    {
        match sub {
            IrType::Null => true,
            IrType::Array(array) => self.is_array_under(array, above),
            _ => false,
        }
    }

    fn is_array_under(&self, sub: &ArrayRef, above: &ArrayRef) -> bool
        ensures { IsTrue result ↔ (AreAlike self.now sub.now above.now ⊎ IsDeeper sub.now above.now) }
    {
        self.are_alike(sub, above) || is_deeper(sub, above)
    }

    fn are_alike(&self, sub: &ArrayRef, above: &ArrayRef) -> bool
        ensures { IsTrue result ↔ AreAlike self.now sub.now above.now }
    {
        sub.dimensions == above.dimensions && self.is_sub_base(&sub.base, &above.base)
    }

    fn is_sub_base(&self, sub: &BaseRef, above: &BaseRef) -> bool
        ensures { IsTrue result ↔ IsSubBase self.now sub.now above.now }
    {
        sub.is_same(above) || self.is_class_base_under(sub, above)
    }

    fn is_class_base_under(&self, sub: &BaseRef, above: &BaseRef) -> bool
        ensures { IsTrue result ↔ IsClassUnder self.now sub.now above.now }
    {
        match (sub, above) {
            (BaseRef::Class(below), BaseRef::Class(above)) => self.is_ancestor(below, above),
            _ => false,
        }
    }
}

// Whether arrays of one type are arrays of arrays where those of the other hold objects.
fn is_deeper(sub: &ArrayRef, above: &ArrayRef) -> bool
    ensures { IsTrue result ↔ IsDeeper sub.now above.now }
{
    above.dimensions < sub.dimensions && is_object(&above.base)
}

fn is_object(base: &BaseRef) -> bool
    ensures { IsTrue result ↔ (base.now ≡ BaseRef.Class known.object) }
{
    match base {
        BaseRef::Class(name) => name.text() == OBJECT,
        _ => false,
    }
}

// Whether a name stands among names in order.
fn stands_in(names: &[ClassName], name: &ClassName) -> bool
    requires { IsSorted (slice_cmp nat_cmp) names.now }
    ensures { IsTrue result ↔ Contains names.now name.now }
{
    names.binary_search(name).is_ok()
}
