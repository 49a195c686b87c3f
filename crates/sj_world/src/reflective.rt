// The targets of reflective calls.
ghost use Rattle.std.specs.Prelude.{◌≡◌, ◌↔◌, IsTrue, MatchOption, option_map};
ghost use Rattle.sj_names.specs.MethodNames.{spelled_result};
ghost use Rattle.sj_world.specs.Paths.{HasNone};
ghost use Rattle.sj_world.specs.Refusals.{is_before};
ghost use Rattle.sj_world.specs.Calls as calls;

use crate::World;
use crate::members::Owned;
use crate::spellings::compare_results;
use sj_names::{ClassName, MethodName, Namespace};
use sj_trees::{ClassDef, IrType, MethodDef};

impl World {
    /// What a reflective call runs on an instance of a class: in the first class on its chain that declares a public method with
    /// the simple name and the parameters of `proxy`, that one of them whose result is a subtype of the results of all; where
    /// there is none such, the one least in the order of the bytes of their names. The result of `proxy` plays no part.
    pub fn proxy_target(&self, class: &ClassName, proxy: &MethodName) -> Option<Owned<'_>>
        ensures { MatchOption result (calls.HasNoProxyTarget self.now class.now proxy.now) (λ found. calls.IsProxyTarget self.now class.now proxy.now found.method.now found.owner.now) }
    {
        match self.chain(class) {
            Some(chain) => self.first_chosen(chain, proxy),
            None => None,
        }
    }

    fn first_chosen(&self, names: &[ClassName], proxy: &MethodName) -> Option<Owned<'_>>
        ensures { MatchOption result (calls.HaveNoneNamed self.now proxy.now names.now) (λ found. calls.IsFirstChosen self.now proxy.now names.now found.method.now found.owner.now) }
    {
        for name in names {
            if let Some(found) = self.chosen_at(name, proxy) {
                return Some(found);
            }
        }
        None
    }

    fn chosen_at(&self, name: &ClassName, proxy: &MethodName) -> Option<Owned<'_>>
        ensures { MatchOption result (calls.HasNoneNamed self.now proxy.now name.now) (λ found. calls.IsChosenAt self.now proxy.now name.now found.method.now × (found.owner.now ≡ name.now)) }
    {
        match self.class(name) {
            Some(class) => self.chosen_of(class, proxy),
            None => None,
        }
    }

    fn chosen_of<'c>(&self, class: &'c ClassDef, proxy: &MethodName) -> Option<Owned<'c>>
        ensures { MatchOption result (HasNone (calls.IsNamedBy proxy.now) class.now.methods) (λ found. calls.IsChosen self.now proxy.now class.now.methods found.method.now × (found.owner.now ≡ class.now.name)) }
    {
        match self.chosen(class.methods.as_slice(), proxy) {
            Some(method) => Some(Owned {
                method,
                owner: &class.name,
            }),
            None => None,
        }
    }

    fn chosen<'m>(&self, methods: &'m [MethodDef], proxy: &MethodName) -> Option<&'m MethodDef>
        ensures { MatchOption result (HasNone (calls.IsNamedBy proxy.now) methods.now) (λ method. calls.IsChosen self.now proxy.now methods.now method.now) }
    {
        match self.narrowest(methods, proxy) {
            Some(method) => Some(method),
            None => least_named(methods, proxy),
        }
    }

    fn narrowest<'m>(&self, methods: &'m [MethodDef], proxy: &MethodName) -> Option<&'m MethodDef>
        ensures { MatchOption result (calls.HasNoNarrowest self.now proxy.now methods.now) (λ method. calls.IsNarrowest self.now proxy.now methods.now method.now) }
    {
        for method in methods {
            if is_named_by(method, proxy) && self.is_below_all(&method.result, methods, proxy) {
                return Some(method);
            }
        }
        None
    }

    // Whether a type is a subtype of the results of all methods that `proxy` names.
    fn is_below_all(&self, tpe: &IrType, methods: &[MethodDef], proxy: &MethodName) -> bool
        ensures { IsTrue result ↔ calls.IsBelowAll self.now proxy.now methods.now tpe.now }
    {
        for method in methods {
            if is_named_by(method, proxy) && !self.is_sub(tpe, &method.result) {
                return false;
            }
        }
        true
    }
}

// The method whose name is least in the order of bytes, of those that `proxy` names.
fn least_named<'m>(methods: &'m [MethodDef], proxy: &MethodName) -> Option<&'m MethodDef>
    ensures { MatchOption result (HasNone (calls.IsNamedBy proxy.now) methods.now) (λ method. calls.IsLeastNamed proxy.now methods.now method.now) }
{
    let mut least: Option<&MethodDef> = None;
    for method in methods {
        if is_named_by(method, proxy) {
            least = Some(lesser(least, method));
        }
    }
    least
}

// The one whose result is less in the order of the bytes of the spellings, the first where they are the same.
fn lesser<'m>(least: Option<&'m MethodDef>, method: &'m MethodDef) -> &'m MethodDef
    ensures { result.now ≡ calls.lesser (option_map (λ d. d.now) least.entry) method.now }
{
    match least {
        Some(other) if !comes_before(method, other) => other,
        _ => method,
    }
}

fn comes_before(method: &MethodDef, other: &MethodDef) -> bool
    ensures { result ≡ is_before (spelled_result method.now.name.result) (spelled_result other.now.name.result) }
{
    compare_results(&method.name.result, &other.name.result).is_lt()
}

// Whether a method is public and has the simple name and the parameters of `proxy`.
fn is_named_by(method: &MethodDef, proxy: &MethodName) -> bool
    ensures { IsTrue result ↔ calls.IsNamedBy proxy.now method.now }
{
    method.namespace == Namespace::Public && has_parameters_of(&method.name, proxy)
}

// Whether both have the same simple name and parameters.
fn has_parameters_of(name: &MethodName, proxy: &MethodName) -> bool
    ensures { IsTrue result ↔ ((name.now.simple ≡ proxy.now.simple) × (name.now.params ≡ proxy.now.params)) }
{
    name.simple.is_same(&proxy.simple) && name.params == proxy.params
}
