// Bindings.
ghost use Rattle.std.specs.Prelude.{◌≡◌, [], ◌∷◌, IfOk};
ghost use Rattle.js_tree.specs.Terms.{Name};
ghost use Rattle.js_tree.specs.declared.items.Binding.{Binding as Bound};
ghost use Rattle.sj_emit_help_spec.specs.Helpers.{of};
ghost use Rattle.sj_emit_help_spec.specs.Words as words;

use crate::kinds::helper_name;
use crate::names::text;
use js_tree::Binding;
use sj_emit_help_spec::Helper;
use sj_names::{ClassName, NoMemory, OBJECT, Text};
use std::alloc::Global;

/// The binding of a class.
pub fn bound(owner: &ClassName, name: Result<Text, NoMemory>) -> Result<Binding, NoMemory>
    ensures { (x : Name) → IfOk name (λ t. t ≡ x) → IfOk result (λ b. b ≡ words.bound owner.now x) }
{
    let name = name?;
    Ok(Binding {
        owner: owner.copied()?,
        name,
    })
}

/// A binding of `java.lang.Object`.
pub fn object_binding(alloc: Global, name: Result<Text, NoMemory>) -> Result<Binding, NoMemory>
    ensures { (x : Name) → IfOk name (λ t. t ≡ x) → IfOk result (λ b. b ≡ words.helper x) }
{
    let name = name?;
    let owner = Text::from_str(alloc, OBJECT)?;
    Ok(Binding {
        owner: ClassName::of_text(owner),
        name,
    })
}

/// The binding of a helper.
pub fn helper_binding(alloc: Global, helper: Helper) -> Result<Binding, NoMemory>
    ensures { IfOk result (λ b. b ≡ of helper) }
{
    object_binding(alloc, text(alloc, helper_name(helper)))
}

/// No bindings.
pub fn no_bindings(alloc: Global) -> Result<Vec<Binding>, NoMemory>
    ensures { IfOk result (λ bs. bs.items ≡ []) }
{
    Ok(Vec::new(alloc))
}

/// One binding.
pub fn one_binding(alloc: Global, one: Result<Binding, NoMemory>) -> Result<Vec<Binding>, NoMemory>
    ensures { (b : Bound) → IfOk one (λ o. o ≡ b) → IfOk result (λ bs. bs.items ≡ b ∷ []) }
{
    Ok(vec![in alloc; one?]?)
}

/// Two bindings.
pub fn two_bindings(
    alloc: Global,
    one: Result<Binding, NoMemory>,
    two: Result<Binding, NoMemory>,
) -> Result<Vec<Binding>, NoMemory>
    ensures { (b c : Bound) → IfOk one (λ o. o ≡ b) → IfOk two (λ t. t ≡ c) → IfOk result (λ bs. bs.items ≡ b ∷ c ∷ []) }
{
    let mut bindings = vec![in alloc; one?]?;
    bindings.push(two?)?;
    Ok(bindings)
}

/// Three bindings.
pub fn three_bindings(
    alloc: Global,
    one: Result<Binding, NoMemory>,
    two: Result<Binding, NoMemory>,
    three: Result<Binding, NoMemory>,
) -> Result<Vec<Binding>, NoMemory>
    ensures { (b c d : Bound) → IfOk one (λ o. o ≡ b) → IfOk two (λ t. t ≡ c) → IfOk three (λ t. t ≡ d) → IfOk result (λ bs. bs.items ≡ b ∷ c ∷ d ∷ []) }
{
    let mut bindings = two_bindings(alloc, one, two)?;
    bindings.push(three?)?;
    Ok(bindings)
}
