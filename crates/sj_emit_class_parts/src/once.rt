// Bindings, each once.
ghost use Rattle.std.specs.Prelude.{◌≡◌, List, [], IfOk, OnOk};
ghost use Rattle.std.specs.List.{list_any};
ghost use Rattle.js_tree.specs.declared.items.Binding.{Binding as Bound};
ghost use Rattle.sj_emit_expr_spec.specs.Uses.{is_same_binding as is_same, once_each};
ghost use Rattle.sj_emit_class_parts.specs.Collecting.{with_use};

use js_tree::Binding;
use sj_names::NoMemory;
use std::alloc::Global;

/// Each binding once, where it comes first.
pub fn once(
    alloc: Global,
    bindings: Result<Vec<Binding>, NoMemory>,
) -> Result<Vec<Binding>, NoMemory>
    ensures { (all : List Bound) → IfOk bindings (λ bs. bs.items ≡ all) → IfOk result (λ bs. bs.items ≡ once_each [] all) }
{
    once_of(alloc, bindings?)
}

#[tactic(auto, using(crate::proofs::Collected::once))]
fn once_of(alloc: Global, bindings: Vec<Binding>) -> Result<Vec<Binding>, NoMemory>
    ensures { IfOk result (λ bs. bs.items ≡ once_each [] bindings.items) }
{
    let mut kept = Vec::new(alloc);
    for binding in bindings {
        add(&mut kept, binding)?;
    }
    Ok(kept)
}

// Adds a binding behind others, if it isn't there.
fn add(bindings: &mut Vec<Binding>, binding: Binding) -> Result<(), NoMemory>
    ensures { OnOk result (bindings.new.items ≡ with_use bindings.old.items binding) }
{
    if !is_used(bindings, &binding) {
        bindings.push(binding)?;
    }
    Ok(())
}

fn is_used(bindings: &[Binding], binding: &Binding) -> bool
    ensures { result ≡ list_any (is_same binding.now) bindings.now }
{
    bindings.iter().any(|each| is_same_binding(binding, each))
}

fn is_same_binding(one: &Binding, other: &Binding) -> bool
    ensures { result ≡ is_same one.now other.now }
{
    one.owner.text() == other.owner.text() && one.name.as_str() == other.name.as_str()
}
