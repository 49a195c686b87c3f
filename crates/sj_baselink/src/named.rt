// Names that are put into a set, and members by their names.
ghost use Rattle.std.specs.Prelude.{◌≡◌, IfOk, OnOk};
ghost use Rattle.sj_reach_spec.specs.Rules as rules;
ghost use Rattle.sj_baselink.specs.Steps.{Puts, entry_for};

use indexmap::IndexSet;
use sj_names::{ClassName, Member, MethodName, Namespace, NoMemory};
use sj_world::MethodEntry;

/// Puts the name, unless it is there.
pub fn put_name(name: &MethodName, names: &mut IndexSet<MethodName>) -> Result<(), NoMemory>
    ensures { OnOk result (Puts (λ m. name.now ≡ m) names.old.keys names.new.keys) }
{
    names.insert(name.copied()?)?;
    Ok(())
}

/// The public method of the class with this name.
pub fn public_member(class: &ClassName, method: &MethodName) -> Result<Member, NoMemory>
    ensures { IfOk result (λ k. k ≡ rules.public_member class.now method.now) }
{
    let class = class.copied()?;
    let method = method.copied()?;
    Ok(Member {
        class,
        namespace: Namespace::Public,
        method,
    })
}

/// Puts the entry of the class with this name for this member, unless it is there.
pub fn put_entry(
    class: &ClassName,
    name: &MethodName,
    target: Member,
    entries: &mut IndexSet<MethodEntry>,
) -> Result<(), NoMemory>
    ensures { OnOk result (Puts (λ e. entry_for class.now name.now target ≡ e) entries.old.keys entries.new.keys) }
{
    let class = class.copied()?;
    let name = name.copied()?;
    entries.insert(MethodEntry {
        class,
        name,
        target,
    })?;
    Ok(())
}
