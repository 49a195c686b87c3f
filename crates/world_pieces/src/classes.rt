// The classes of a world in the order of a module.
ghost use Rattle.std.specs.Prelude.{◌≡◌, map, true, IfOk};
ghost use Rattle.std.specs.List.{IsDistinct};
ghost use Rattle.linked_pieces.specs.Order.{AreClasses};
ghost use Rattle.sj_world.specs.Known.{is_known, is_same};
ghost use Rattle.world_pieces.specs.Places as places;
ghost use Rattle.world_pieces.specs.Places.{HasAncestors, ArePlaces, class_name, name_of};

use sj_names::{ClassName, NoMemory};
use sj_world::World;
use std::alloc::Global;
use std::cmp::Ordering;

/// A class and the number of its ancestors.
#[derive(Drop)]
pub struct ClassPlace {
    pub ancestors: usize,
    pub name: ClassName,
}

/// The classes of the world: those with fewer ancestors first, and of those with as many the lesser names.
pub fn classes_in_order(alloc: Global, world: &World) -> Result<Vec<ClassPlace>, NoMemory>
    ensures classes { IfOk result (λ cs. AreClasses world.now (map name_of cs.items)) }
    ensures once { IfOk result (λ cs. IsDistinct is_same (map name_of cs.items)) }
{
    let mut classes = places_of(alloc, world)?;
    classes.sort_unstable_by(|one, other| order(one, other));
    Ok(classes)
}

fn order(one: &ClassPlace, other: &ClassPlace) -> Ordering
    ensures { result ≡ places.order one.now other.now }
{
    one.ancestors
        .cmp(&other.ancestors)
        .then(one.name.cmp(&other.name))
}

fn places_of(alloc: Global, world: &World) -> Result<Vec<ClassPlace>, NoMemory>
    ensures places { IfOk result (λ cs. ArePlaces world.now (map class_name world.now) cs.items) }
    ensures once { IfOk result (λ cs. IsDistinct is_same (map name_of cs.items)) }
{
    let mut places = Vec::new(alloc);
    let classes = world.classes();
    for class in classes {
        places.push(place_of(world, &class.name)?)?;
    }
    Ok(places)
}

fn place_of(world: &World, class: &ClassName) -> Result<ClassPlace, NoMemory>
    requires { is_known world.now class.now ≡ true }
    ensures name { IfOk result (λ p. p.name ≡ class.now) }
    ensures ancestors { IfOk result (λ p. HasAncestors world.now class.now p.ancestors) }
{
    let ancestors = ancestors_of(world, class);
    Ok(ClassPlace {
        ancestors,
        name: class.copied()?,
    })
}

fn ancestors_of(world: &World, class: &ClassName) -> usize
    requires { is_known world.now class.now ≡ true }
    ensures { HasAncestors world.now class.now result }
{
    match world.ancestors(class) {
        Some(names) => names.len(),
        None => unreachable!(),
    }
}
