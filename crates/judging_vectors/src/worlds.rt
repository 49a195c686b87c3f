// Ancestors, subtypes and methods.
use crate::texts::{add, add_method};
use crate::types::type_of;
use sj_names::{ClassName, MethodName, NameError};
use sj_world::{Owned, Resolution, World};
use std::alloc::Global;

/// Adds the answer to `sub`, `ancestors`, `resolve` or `proxy`.
pub(crate) fn add_answer(
    alloc: Global,
    world: &World,
    kind: &str,
    query: &str,
    text: &mut String,
) -> Result<(), NameError> {
    match query.split_once('\t') {
        None => add_ancestors(alloc, world, query, text),
        Some((sub, above)) if kind == "sub" => add_subtype(alloc, world, sub, above, text),
        Some((class, method)) => add_method_answer(alloc, world, kind, class, method, text),
    }
}

fn add_ancestors(
    alloc: Global,
    world: &World,
    class: &str,
    text: &mut String,
) -> Result<(), NameError> {
    let class = ClassName::parse(alloc, class)?;
    match world.ancestors(&class) {
        Some(names) => add_names(names, text),
        None => add(&["none\n"], text),
    }
}

// Adds names with commas between.
fn add_names(names: &[ClassName], text: &mut String) -> Result<(), NameError> {
    let mut separator = "";
    for name in names {
        add(&[separator, name.text()], text)?;
        separator = ",";
    }
    add(&["\n"], text)
}

fn add_subtype(
    alloc: Global,
    world: &World,
    sub: &str,
    above: &str,
    text: &mut String,
) -> Result<(), NameError> {
    let sub = type_of(alloc, sub)?;
    let above = type_of(alloc, above)?;
    let answer = if world.is_sub(&sub, &above) {
        "yes\n"
    } else {
        "no\n"
    };
    add(&[answer], text)
}

fn add_method_answer(
    alloc: Global,
    world: &World,
    kind: &str,
    class: &str,
    method: &str,
    text: &mut String,
) -> Result<(), NameError> {
    let class = ClassName::parse(alloc, class)?;
    let method = MethodName::parse(alloc, method)?;
    match kind {
        "resolve" => add_resolution(&world.resolve(&class, &method), text),
        "proxy" => add_target(alloc, &world.proxy_target(&class, &method), text),
        _ => add(&["another question\n"], text),
    }
}

fn add_resolution(found: &Resolution<'_>, text: &mut String) -> Result<(), NameError> {
    match found {
        Resolution::Target(_, owner) => add(&["target\t", owner.text(), "\n"], text),
        Resolution::Abstract => add(&["abstract\n"], text),
        Resolution::Missing => add(&["missing\n"], text),
    }
}

fn add_target(
    alloc: Global,
    found: &Option<Owned<'_>>,
    text: &mut String,
) -> Result<(), NameError> {
    match found {
        Some(found) => {
            add(&[found.owner.text(), "\t"], text)?;
            add_method(alloc, &found.method.name, text)?;
            add(&["\n"], text)
        }
        None => add(&["none\n"], text),
    }
}
