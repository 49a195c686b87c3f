// The targets of reflective calls. A class that keeps the local rules has one at most; where several have the same results, each is one.
ghost use Rattle.std.specs.Prelude.{◌≡◌, ◌↔◌, ◌++◌, ◌∷◌, [], IfOk, OnOk, IsTrue, Contains};
ghost use Rattle.sj_names.specs.MethodNames.{spelled_method};
ghost use Rattle.sj_world.specs.Calls.{IsNamedBy, IsBelowAll, IsNarrowest, IsLeastNamed, IsChosen};
ghost use Rattle.sj_world.specs.Refusals.{is_before};
ghost use Rattle.proxy_targets.specs.Proxies.{AreNamesOf, PutsName, IsNarrow, IsLeastOf, HasNoneBefore, IsNamedBefore};
ghost use Rattle.proxy_targets.specs.Proxies.{IsTargetName};

use sj_names::{ClassName, MethodName, Namespace, NoMemory};
use sj_trees::{IrType, MethodDef};
use sj_world::World;
use std::alloc::Global;

/// The names of what a reflective call runs on an instance of a class.
pub fn names_of_targets(
    alloc: Global,
    world: &World,
    class: &ClassName,
    proxy: &MethodName,
) -> Result<Vec<MethodName>, NoMemory>
    ensures { IfOk result (λ names. (m : MethodName) → Contains names.items m ↔ IsTargetName world.now class.now proxy.now m) }
{
    let Some(target) = world.proxy_target(class, proxy) else {
        return Ok(Vec::new(alloc));
    };
    let Some(owner) = world.class(target.owner) else {
        return Ok(Vec::new(alloc));
    };
    names_of_chosen(alloc, world, owner.methods.as_slice(), proxy)
}

fn names_of_chosen(
    alloc: Global,
    world: &World,
    methods: &[MethodDef],
    proxy: &MethodName,
) -> Result<Vec<MethodName>, NoMemory>
    ensures { IfOk result (λ names. AreNamesOf (IsChosen world.now proxy.now methods.now) names.items) }
{
    let names = names_of_narrowest(alloc, world, methods, proxy)?;
    if names.len() > 0 {
        Ok(names)
    } else {
        names_of_least(alloc, methods, proxy)
    }
}

fn names_of_narrowest(
    alloc: Global,
    world: &World,
    methods: &[MethodDef],
    proxy: &MethodName,
) -> Result<Vec<MethodName>, NoMemory>
    ensures { IfOk result (λ names. AreNamesOf (IsNarrowest world.now proxy.now methods.now) names.items) }
{
    let mut names = Vec::new(alloc);
    for method in methods {
        put_if_narrowest(world, method, methods, proxy, &mut names)?;
    }
    Ok(names)
}

fn put_if_narrowest(
    world: &World,
    method: &MethodDef,
    methods: &[MethodDef],
    proxy: &MethodName,
    names: &mut Vec<MethodName>,
) -> Result<(), NoMemory>
    ensures { OnOk result (PutsName (IsNarrow world.now proxy.now methods.now) method.now names.old.items names.new.items) }
{
    if is_narrowest(world, method, methods, proxy) {
        put_name(method, names)
    } else {
        Ok(())
    }
}

fn put_name(method: &MethodDef, names: &mut Vec<MethodName>) -> Result<(), NoMemory>
    ensures { OnOk result (names.new.items ≡ names.old.items ++ method.now.name ∷ []) }
{
    let name = method.name.copied()?;
    names.push(name)?;
    Ok(())
}

fn names_of_least(
    alloc: Global,
    methods: &[MethodDef],
    proxy: &MethodName,
) -> Result<Vec<MethodName>, NoMemory>
    ensures { IfOk result (λ names. AreNamesOf (IsLeastNamed proxy.now methods.now) names.items) }
{
    let mut names = Vec::new(alloc);
    for method in methods {
        put_if_least(alloc, method, methods, proxy, &mut names)?;
    }
    Ok(names)
}

fn put_if_least(
    alloc: Global,
    method: &MethodDef,
    methods: &[MethodDef],
    proxy: &MethodName,
    names: &mut Vec<MethodName>,
) -> Result<(), NoMemory>
    ensures { OnOk result (PutsName (IsLeastOf proxy.now methods.now) method.now names.old.items names.new.items) }
{
    if is_least(alloc, method, methods, proxy)? {
        put_name(method, names)
    } else {
        Ok(())
    }
}

fn is_narrowest(
    world: &World,
    method: &MethodDef,
    methods: &[MethodDef],
    proxy: &MethodName,
) -> bool
    ensures { IsTrue result ↔ IsNarrow world.now proxy.now methods.now method.now }
{
    is_named_by(method, proxy) && is_below_all(world, &method.result, methods, proxy)
}

fn is_below_all(world: &World, tpe: &IrType, methods: &[MethodDef], proxy: &MethodName) -> bool
    ensures { IsTrue result ↔ IsBelowAll world.now proxy.now methods.now tpe.now }
{
    for method in methods {
        if is_named_by(method, proxy) && !world.is_sub(tpe, &method.result) {
            return false;
        }
    }
    true
}

fn is_least(
    alloc: Global,
    method: &MethodDef,
    methods: &[MethodDef],
    proxy: &MethodName,
) -> Result<bool, NoMemory>
    ensures { IfOk result (λ yes. IsTrue yes ↔ IsLeastOf proxy.now methods.now method.now) }
{
    if is_named_by(method, proxy) {
        has_none_before(alloc, method, methods, proxy)
    } else {
        Ok(false)
    }
}

// Whether none of the methods that `proxy` names comes before this one.
fn has_none_before(
    alloc: Global,
    method: &MethodDef,
    methods: &[MethodDef],
    proxy: &MethodName,
) -> Result<bool, NoMemory>
    ensures { IfOk result (λ yes. IsTrue yes ↔ HasNoneBefore proxy.now methods.now method.now) }
{
    for other in methods {
        if is_named_before(alloc, other, method, proxy)? {
            return Ok(false);
        }
    }
    Ok(true)
}

fn is_named_before(
    alloc: Global,
    other: &MethodDef,
    method: &MethodDef,
    proxy: &MethodName,
) -> Result<bool, NoMemory>
    ensures { IfOk result (λ yes. IsTrue yes ↔ IsNamedBefore proxy.now method.now other.now) }
{
    if is_named_by(other, proxy) {
        comes_before(alloc, &other.name, &method.name)
    } else {
        Ok(false)
    }
}

fn comes_before(alloc: Global, one: &MethodName, other: &MethodName) -> Result<bool, NoMemory>
    ensures { IfOk result (λ yes. yes ≡ is_before (spelled_method one.now) (spelled_method other.now)) }
{
    let one = one.spelled(alloc)?;
    let other = other.spelled(alloc)?;
    Ok(one.cmp(&other).is_lt())
}

fn is_named_by(method: &MethodDef, proxy: &MethodName) -> bool
    ensures { IsTrue result ↔ IsNamedBy proxy.now method.now }
{
    method.namespace == Namespace::Public && has_parameters_of(&method.name, proxy)
}

fn has_parameters_of(name: &MethodName, proxy: &MethodName) -> bool
    ensures { IsTrue result ↔ ((name.now.simple ≡ proxy.now.simple) × (name.now.params ≡ proxy.now.params)) }
{
    name.simple.is_same(&proxy.simple) && name.params == proxy.params
}
