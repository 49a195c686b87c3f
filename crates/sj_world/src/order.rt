// Classes in the order of their names.
ghost use Rattle.std.specs.Prelude.{◌≡◌, MatchResult, MatchOption};
ghost use Rattle.std.specs.List.Sorted.{IsSortedBy};
ghost use Rattle.sj_world.specs.Refusals.{IsInOrder, IsSortedFrom, IsLeastTwice, IsRefused, is_before};

use crate::WorldError;
use sj_names::ClassName;
use sj_trees::ClassDef;

// The classes in the order of the bytes of their names, where no name comes twice; else the least that does.
pub fn in_order(mut classes: Vec<ClassDef>) -> Result<Vec<ClassDef>, WorldError>
    ensures { MatchResult result (λ w. IsSortedFrom classes.items w.items) (IsRefused classes.items) }
{
    classes.sort_by(|one, other| one.name.cmp(&other.name))?;
    match first_twice(&classes) {
        Some(name) => Err(WorldError::DuplicateClass(name.copied()?)),
        None => Ok(classes),
    }
}

// The first name that comes twice among classes that stand in order.
fn first_twice(classes: &[ClassDef]) -> Option<&ClassName>
    requires { IsSortedBy (λ a b. is_before a.name b.name) classes.now }
    ensures { MatchOption result (IsInOrder classes.now) (λ name. IsLeastTwice classes.now name.now) }
{
    for place in 1..classes.len() {
        let name = &classes[place].name;
        if classes[place - 1].name.is_same(name) {
            return Some(name);
        }
    }
    None
}
