// The public methods of the classes of a world.
ghost use Rattle.std.specs.Prelude.{◌≡◌, ◌↔◌, IsTrue, MatchOption, Contains};
ghost use Rattle.sj_world.specs.Paths.{IsFirst, HasNone};
ghost use Rattle.sj_world.specs.Resolution.{IsPublic, IsBody, IsBodyAt, HasNoBody, IsDefault, IsNoDefault, IsOverride, IsOverridden, IsCandidate, IsNoCandidate, HasPublic, IsDeclaredAt, IsDeclared};

use crate::World;
use sj_names::{ClassName, MethodName, Namespace};
use sj_trees::{ClassDef, ClassKind, MethodDef};

/// A method and the class that defines it.
#[derive(Drop)]
pub struct Owned<'w> {
    pub method: &'w MethodDef,
    pub owner: &'w ClassName,
}

impl World {
    // The body that the class of this name has for the method.
    pub(crate) fn body_at(&self, name: &ClassName, method: &MethodName) -> Option<Owned<'_>>
        ensures { MatchOption result (HasNoBody self.now method.now name.now) (λ found. IsBodyAt self.now method.now name.now found.method.now × (found.owner.now ≡ name.now)) }
    {
        match self.class(name) {
            Some(class) => body_of(class, method),
            None => None,
        }
    }

    // The body that the interface of this name has for the method, where none of those above overrides it.
    pub(crate) fn candidate(
        &self,
        above: &[ClassName],
        name: &ClassName,
        method: &MethodName,
    ) -> Option<Owned<'_>>
        requires { Contains above.now name.now }
        ensures { MatchOption result (IsNoCandidate self.now (Contains above.now) method.now name.now) (λ found. IsCandidate self.now (Contains above.now) method.now name.now found.method.now × (found.owner.now ≡ name.now)) }
    {
        if self.is_overridden(above, name, method) {
            return None;
        }
        self.default_at(name, method)
    }

    // Whether another interface among these has a body for the method, and is a descendant of this one.
    fn is_overridden(&self, above: &[ClassName], name: &ClassName, method: &MethodName) -> bool
        ensures { IsTrue result ↔ IsOverridden self.now (Contains above.now) method.now name.now }
    {
        for other in above {
            if self.overrides(other, name, method) {
                return true;
            }
        }
        false
    }

    fn overrides(&self, other: &ClassName, name: &ClassName, method: &MethodName) -> bool
        ensures { IsTrue result ↔ IsOverride self.now method.now name.now other.now }
    {
        if other.is_same(name) {
            return false;
        }
        if !self.is_ancestor(other, name) {
            return false;
        }
        self.default_at(other, method).is_some()
    }

    // The body that the interface of this name has for the method.
    fn default_at(&self, name: &ClassName, method: &MethodName) -> Option<Owned<'_>>
        ensures { MatchOption result (IsNoDefault self.now method.now name.now) (λ found. IsDefault self.now method.now name.now found.method.now × (found.owner.now ≡ name.now)) }
    {
        match self.class(name) {
            Some(class) if class.kind == ClassKind::Interface => body_of(class, method),
            _ => None,
        }
    }

    // Whether one of these classes declares the method.
    pub(crate) fn is_declared(&self, above: &[ClassName], method: &MethodName) -> bool
        ensures { IsTrue result ↔ IsDeclared self.now (Contains above.now) method.now }
    {
        for name in above {
            if self.declares(name, method) {
                return true;
            }
        }
        false
    }

    fn declares(&self, name: &ClassName, method: &MethodName) -> bool
        ensures { IsTrue result ↔ IsDeclaredAt self.now method.now name.now }
    {
        match self.class(name) {
            Some(class) => has_public(class.methods.as_slice(), method),
            None => false,
        }
    }
}

// The body that a class has for the method.
fn body_of<'c>(class: &'c ClassDef, method: &MethodName) -> Option<Owned<'c>>
    ensures { MatchOption result (HasNone (IsBody method.now) class.now.methods) (λ found. IsFirst (IsBody method.now) class.now.methods found.method.now × (found.owner.now ≡ class.now.name)) }
{
    match body_in(class.methods.as_slice(), method) {
        Some(method) => Some(Owned {
            method,
            owner: &class.name,
        }),
        None => None,
    }
}

fn body_in<'c>(methods: &'c [MethodDef], name: &MethodName) -> Option<&'c MethodDef>
    ensures { MatchOption result (HasNone (IsBody name.now) methods.now) (λ method. IsFirst (IsBody name.now) methods.now method.now) }
{
    for method in methods {
        if is_public(method, name) && method.body.is_some() {
            return Some(method);
        }
    }
    None
}

fn has_public(methods: &[MethodDef], name: &MethodName) -> bool
    ensures { IsTrue result ↔ HasPublic name.now methods.now }
{
    for method in methods {
        if is_public(method, name) {
            return true;
        }
    }
    false
}

fn is_public(method: &MethodDef, name: &MethodName) -> bool
    ensures { IsTrue result ↔ IsPublic name.now method.now }
{
    method.namespace == Namespace::Public && method.name.is_same(name)
}
