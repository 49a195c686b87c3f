// The kinds of primitive values that are instances of a class.
ghost use Rattle.std.specs.Prelude.{◌≡◌, ◌↔◌, ◌++◌, ◌∷◌, [], List, IfOk, IsTrue, OnOk};
ghost use Rattle.sj_emit_help_spec.specs.Words.{kind_class, worded_kinds};
ghost use Rattle.sj_emit_help_spec.specs.declared.kinds.Kind.{Kind as AnyKind};
ghost use Rattle.sj_emit_class_spec.specs.Classes.{AreInstances};
ghost use Rattle.sj_world.specs.Ancestors.{IsAncestor};

use piece_making::class_of_kind;
use sj_emit_help_spec::Kind;
use sj_names::{ClassName, NoMemory, Text};
use sj_world::World;
use std::alloc::Global;

/// The kinds that are told by a word and whose values are instances of the class, in order.
pub fn instances_of(alloc: Global, world: &World, class: &ClassName) -> Result<Vec<Kind>, NoMemory>
    ensures { IfOk result (λ kinds. AreInstances world.now class.now worded_kinds kinds.items) }
{
    let kinds = [
        Kind::Undefined,
        Kind::Boolean,
        Kind::Int,
        Kind::Long,
        Kind::Text,
    ];
    instances_among(alloc, world, class, &kinds)
}

fn instances_among(
    alloc: Global,
    world: &World,
    class: &ClassName,
    kinds: &[Kind],
) -> Result<Vec<Kind>, NoMemory>
    ensures { IfOk result (λ found. AreInstances world.now class.now kinds.now found.items) }
{
    let mut found = Vec::new(alloc);
    for kind in kinds {
        put_instance(alloc, world, class, *kind, &mut found)?;
    }
    Ok(found)
}

// Puts the kind behind others, if its values are instances of the class.
fn put_instance(
    alloc: Global,
    world: &World,
    class: &ClassName,
    kind: Kind,
    found: &mut Vec<Kind>,
) -> Result<(), NoMemory>
    ensures { OnOk result ((ks : List AnyKind) → AreInstances world.now class.now ks found.old.items → AreInstances world.now class.now (ks ++ kind ∷ []) found.new.items) }
{
    if is_instance(alloc, world, class, kind)? {
        found.push(kind)?;
    }
    Ok(())
}

fn is_instance(
    alloc: Global,
    world: &World,
    class: &ClassName,
    kind: Kind,
) -> Result<bool, NoMemory>
    ensures { IfOk result (λ yes. IsTrue yes ↔ IsAncestor world.now (kind_class kind) class.now) }
{
    let kind_class = class_name(alloc, kind)?;
    Ok(world.is_ancestor(&kind_class, class))
}

fn class_name(alloc: Global, kind: Kind) -> Result<ClassName, NoMemory>
    ensures { IfOk result (λ c. c ≡ kind_class kind) }
{
    let text = Text::from_str(alloc, class_of_kind(kind))?;
    Ok(ClassName::of_text(text))
}
