// The rules on a class as a whole.
ghost use Rattle.std.specs.Prelude.{◌≡◌, ◌||◌};
ghost use Rattle.std.specs.List.{list_any};
ghost use Rattle.sj_local.specs.Names as names;
ghost use Rattle.sj_local.specs.ClassRules as rules;

use crate::names::{is_number, is_object};
use sj_names::{ClassName, is_hijacked};
use sj_trees::{ClassDef, ClassKind};

pub fn keeps_superclass(class: &ClassDef) -> bool
    ensures { result ≡ rules.keeps_superclass class.now }
{
    if is_object(&class.name) {
        class.kind == ClassKind::Class
            && class.superclass.is_none()
            && class.interfaces.as_slice().is_empty()
    } else if class.kind == ClassKind::Interface {
        class.superclass.is_none()
    } else {
        class.superclass.is_some()
    }
}

pub fn keeps_hijacked(class: &ClassDef) -> bool
    ensures { result ≡ rules.keeps_hijacked class.now }
{
    is_rightly_hijacked(class)
        && is_right_number(class)
        && !is_hijacked_name(&class.superclass)
        && !has_hijacked(class.interfaces.as_slice())
}

// Whether the kind and the superclass are those of a hijacked class, or the kind is another.
fn is_rightly_hijacked(class: &ClassDef) -> bool
    ensures { result ≡ rules.is_rightly_hijacked class.now }
{
    if is_hijacked(class.name.text()) {
        class.kind == ClassKind::HijackedClass && is_object_or_number(&class.superclass)
    } else {
        class.kind != ClassKind::HijackedClass
    }
}

fn is_right_number(class: &ClassDef) -> bool
    ensures { result ≡ rules.is_right_number class.now }
{
    !is_number(&class.name) || class.kind == ClassKind::Class && is_object_name(&class.superclass)
}

fn is_object_or_number(name: &Option<ClassName>) -> bool
    ensures { result ≡ names.is_some_name (λ d. names.is_object d || names.is_number d) name.now }
{
    match name {
        Some(name) => is_object(name) || is_number(name),
        None => false,
    }
}

fn is_object_name(name: &Option<ClassName>) -> bool
    ensures { result ≡ names.is_some_name names.is_object name.now }
{
    match name {
        Some(name) => is_object(name),
        None => false,
    }
}

fn is_hijacked_name(name: &Option<ClassName>) -> bool
    ensures { result ≡ names.is_some_name names.is_hijacked name.now }
{
    match name {
        Some(name) => is_hijacked(name.text()),
        None => false,
    }
}

fn has_hijacked(all: &[ClassName]) -> bool
    ensures { result ≡ list_any names.is_hijacked all.now }
{
    all.iter().any(|name| is_hijacked(name.text()))
}
