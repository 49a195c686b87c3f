// The method names of which pieces use a function.
ghost use Rattle.std.specs.Prelude.{◌≡◌, ◌↔◌, Contains, IfOk, OnOk, IsTrue};
ghost use Rattle.std.specs.List.{IsDistinct};
ghost use Rattle.sj_baselink.specs.Steps.{Puts};
ghost use Rattle.sj_mangling.specs.Bindings as bindings;
ghost use Rattle.sj_names.specs.MethodNames.{IsMethodName};
ghost use Rattle.sj_names.specs.contracts.method_names.MethodNamePartialEq.TheImpl as method_eq;
ghost use Rattle.world_pieces.specs.Told.{IsUsedMethod};

use indexmap::IndexSet;
use sj_mangling::{MethodBinding, method_binding};
use sj_names::{MethodName, NameError, NoMemory, Text};
use std::alloc::Global;

/// Puts the method name if its binding is among these names.
pub fn put_used(
    alloc: Global,
    words: &IndexSet<Text>,
    binding: MethodBinding,
    method: &MethodName,
    methods: &mut IndexSet<MethodName>,
) -> Result<(), NoMemory>
    ensures { OnOk result (Puts (IsUsedMethod binding words.now.keys method.now) methods.old.keys methods.new.keys) }
{
    if is_told(alloc, words, binding, method)? {
        methods.insert(method.copied()?)?;
    }
    Ok(())
}

fn is_told(
    alloc: Global,
    words: &IndexSet<Text>,
    binding: MethodBinding,
    method: &MethodName,
) -> Result<bool, NoMemory>
    ensures { IfOk result (λ yes. IsTrue yes ↔ (IsMethodName method.now × Contains words.now.keys (bindings.method_binding binding method.now))) }
{
    if is_used(alloc, words, binding, method)? {
        is_spelled(alloc, method)
    } else {
        Ok(false)
    }
}

fn is_used(
    alloc: Global,
    words: &IndexSet<Text>,
    binding: MethodBinding,
    method: &MethodName,
) -> Result<bool, NoMemory>
    ensures { IfOk result (λ yes. IsTrue yes ↔ Contains words.now.keys (bindings.method_binding binding method.now)) }
{
    let name = method_binding(alloc, binding, method)?;
    Ok(words.contains(&name))
}

// Whether its spelling spells the method name.
fn is_spelled(alloc: Global, method: &MethodName) -> Result<bool, NoMemory>
    ensures { IfOk result (λ yes. IsTrue yes ↔ IsMethodName method.now) }
{
    let spelled = method.spelled(alloc)?;
    match MethodName::parse(alloc, spelled.as_str()) {
        Ok(read) => Ok(read.is_same(method)),
        Err(NameError::BadName) => Ok(false),
        Err(NameError::NoMemory) => Err(NoMemory),
    }
}

/// The method names as a list.
pub fn listed(alloc: Global, methods: IndexSet<MethodName>) -> Result<Vec<MethodName>, NoMemory>
    ensures all { IfOk result (λ list. list.items ≡ methods.keys) }
    ensures once { IfOk result (λ list. IsDistinct method_eq.ghosts.eq list.items) }
{
    Ok(methods.into_iter().collect(alloc)?)
}
