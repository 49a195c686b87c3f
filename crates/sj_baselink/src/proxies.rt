// The entries for reflective names.
ghost use Rattle.std.specs.Prelude.{◌≡◌, OnOk};
ghost use Rattle.sj_reach_spec.specs.Rules as rules;
ghost use Rattle.sj_baselink.specs.Steps.{Puts, OfOne, AreMade, IsProxyOf, IsProxyEntry, entry_for};

use crate::named::{public_member, put_entry};
use crate::reflective::reflective_names;
use indexmap::IndexSet;
use proxy_targets::names_of_targets;
use sj_names::{ClassName, MethodName, NoMemory};
use sj_world::{Fact, MethodEntry, World};
use std::alloc::Global;

/// Puts the entries of the classes that are made for reflective names.
pub fn put_proxies(
    alloc: Global,
    w: &World,
    facts: &[Fact],
    made: &[ClassName],
    entries: &mut IndexSet<MethodEntry>,
) -> Result<(), NoMemory>
    requires { AreMade facts.now made.now }
    ensures { OnOk result (Puts (IsProxyEntry w.now facts.now) entries.old.keys entries.new.keys) }
{
    let proxies = reflective_names(alloc, w, facts)?;
    put_proxies_of_each(alloc, w, made, proxies.as_slice(), entries)
}

fn put_proxies_of_each(
    alloc: Global,
    w: &World,
    classes: &[ClassName],
    proxies: &[MethodName],
    entries: &mut IndexSet<MethodEntry>,
) -> Result<(), NoMemory>
    ensures { OnOk result (Puts (OfOne classes.now (λ c. OfOne proxies.now (IsProxyOf w.now c))) entries.old.keys entries.new.keys) }
{
    for class in classes {
        put_proxies_of(alloc, w, class, proxies, entries)?;
    }
    Ok(())
}

fn put_proxies_of(
    alloc: Global,
    w: &World,
    class: &ClassName,
    proxies: &[MethodName],
    entries: &mut IndexSet<MethodEntry>,
) -> Result<(), NoMemory>
    ensures { OnOk result (Puts (OfOne proxies.now (IsProxyOf w.now class.now)) entries.old.keys entries.new.keys) }
{
    for proxy in proxies {
        put_proxy(alloc, w, class, proxy, entries)?;
    }
    Ok(())
}

fn put_proxy(
    alloc: Global,
    w: &World,
    class: &ClassName,
    proxy: &MethodName,
    entries: &mut IndexSet<MethodEntry>,
) -> Result<(), NoMemory>
    ensures { OnOk result (Puts (IsProxyOf w.now class.now proxy.now) entries.old.keys entries.new.keys) }
{
    let names = names_of_targets(alloc, w, class, proxy)?;
    put_targets(class, proxy, &names, entries)
}

// Puts an entry of the class with the reflective name for each of its methods of these names.
fn put_targets(
    class: &ClassName,
    proxy: &MethodName,
    names: &[MethodName],
    entries: &mut IndexSet<MethodEntry>,
) -> Result<(), NoMemory>
    ensures { OnOk result (Puts (OfOne names.now (λ t e. entry_for class.now proxy.now (rules.public_member class.now t) ≡ e)) entries.old.keys entries.new.keys) }
{
    for name in names {
        let target = public_member(class, name)?;
        put_entry(class, proxy, target, entries)?;
    }
    Ok(())
}
