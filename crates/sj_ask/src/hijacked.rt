// Classes above hijacked ones.
ghost use Rattle.std.specs.Prelude.{◌≡◌, ◌↔◌, IsTrue, true, false, option_map};
ghost use Rattle.sj_world.specs.Known as known;
ghost use Rattle.sj_world.specs.Refusals.{IsInOrder};
ghost use Rattle.sj_ask.specs.Answers.{IsAboveHijacked};
ghost use Rattle.sj_ask.specs.Hijacked.{IsAboveOne, IsAboveName, IsAboveObject};

use sj_names::ClassName;
use sj_trees::ClassDef;
use sj_world::World;

const OBJECT: &str = "java.lang.Object";

/// Whether a hijacked class is a subtype of the class.
pub fn has_hijacked(world: &World, class: &ClassName) -> bool
    ensures { IsTrue result ↔ IsAboveHijacked world.now class.now }
{
    if is_hijacked(class.text()) {
        return true;
    }
    if class.text() == OBJECT {
        return true;
    }
    is_above_one(world, class)
}

// Whether the class is above one of the hijacked classes, where it is neither one of them nor `java.lang.Object`. What stands above
// `java.lang.Byte` and `java.lang.Short` stands above `java.lang.Integer`.
fn is_above_one(world: &World, class: &ClassName) -> bool
    ensures { IsTrue result ↔ IsAboveOne world.now class.now }
{
    if is_above(world, "java.lang.Void", class) {
        return true;
    }
    if is_above(world, "java.lang.Boolean", class) {
        return true;
    }
    if is_above(world, "java.lang.Character", class) {
        return true;
    }
    if is_above(world, "java.lang.Integer", class) {
        return true;
    }
    if is_above(world, "java.lang.Long", class) {
        return true;
    }
    is_above(world, "java.lang.String", class)
}

// Whether the class is above the one of this name, or above `java.lang.Object` where that one isn't there.
fn is_above(world: &World, below: &str, class: &ClassName) -> bool
    ensures { IsTrue result ↔ IsAboveName world.now below.now class.now }
{
    match class_named(world, below) {
        Some(below) => world.is_ancestor(&below.name, class),
        None => is_above_object(world, class),
    }
}

fn is_above_object(world: &World, class: &ClassName) -> bool
    ensures { IsTrue result ↔ IsAboveObject world.now class.now }
{
    match class_named(world, OBJECT) {
        Some(object) => world.is_ancestor(&object.name, class),
        None => false,
    }
}

// The class of this name.
fn class_named<'w>(world: &'w World, name: &str) -> Option<&'w ClassDef>
    ensures { option_map (λ c. c.now) result ≡ known.class_of world.now name.now }
{
    class_in(world.classes(), name)
}

fn class_in<'c>(classes: &'c [ClassDef], name: &str) -> Option<&'c ClassDef>
    requires { IsInOrder classes.now }
    ensures { option_map (λ c. c.now) result ≡ known.class_of classes.now name.now }
{
    match classes.binary_search_by(|class| class.name.text().cmp(name)) {
        Ok(place) => Some(&classes[place]),
        Err(_) => None,
    }
}

// Whether `name` is one of the eight classes whose instances are primitive values.
fn is_hijacked(name: &str) -> bool
    ensures { result ≡ known.is_hijacked name.now }
{
    name == "java.lang.Void"
        || name == "java.lang.Boolean"
        || name == "java.lang.Character"
        || name == "java.lang.Byte"
        || name == "java.lang.Short"
        || name == "java.lang.Integer"
        || name == "java.lang.Long"
        || name == "java.lang.String"
}
