// Functions by the classes that own them.
ghost use Rattle.std.specs.Prelude.{◌≡◌, ◌++◌, ◌∷◌, [], false, IfOk, OnOk, if◌then◌else◌};
ghost use Rattle.std.specs.List.{filter};
ghost use Rattle.sj_world.specs.Known.{Name, is_same};
ghost use Rattle.world_pieces.specs.Functions.{group_of, is_owned, AreByName};

use indexmap::IndexMap;
use js_tree::JsPiece;
use sj_names::{ClassName, NoMemory};
use std::alloc::Global;

/// Functions, grouped by the classes that own them.
#[derive(Drop)]
pub struct FunctionGroups {
    groups: IndexMap<ClassName, Vec<JsPiece>>,
}

impl FunctionGroups {
    /// The groups of the functions. In each they stand in the order in which they are given.
    pub fn of(alloc: Global, functions: Vec<JsPiece>) -> Result<FunctionGroups, NoMemory>
        ensures { IfOk result (λ g. (c : Name) → group_of g c ≡ filter (is_owned c) functions.items) }
    {
        let mut groups = FunctionGroups {
            groups: IndexMap::new(alloc),
        };
        for function in functions {
            groups.put(alloc, function)?;
        }
        Ok(groups)
    }

    // Puts a function behind those of its owner.
    fn put(&mut self, alloc: Global, function: JsPiece) -> Result<(), NoMemory>
        ensures { OnOk result ((c : Name) → group_of self.new c ≡ (if is_same function.owner c then group_of self.old c ++ function ∷ [] else group_of self.old c)) }
    {
        if let Some(group) = self.groups.get_mut(&function.owner) {
            group.push(function)?;
            return Ok(());
        }
        let owner = function.owner.copied()?;
        let mut group = Vec::new(alloc);
        group.push(function)?;
        self.groups.insert(owner, group)?;
        Ok(())
    }

    /// Takes the functions of a class.
    pub fn take(&mut self, alloc: Global, class: &ClassName) -> Vec<JsPiece>
        ensures taken { result.items ≡ group_of self.old class.now }
        ensures others { (c : Name) → is_same class.now c ≡ false → group_of self.new c ≡ group_of self.old c }
    {
        match self.groups.swap_remove(class) {
            Some(group) => group,
            None => Vec::new(alloc),
        }
    }
}

/// The functions in the order of their names.
pub fn in_order(mut functions: Vec<JsPiece>) -> Vec<JsPiece>
    ensures { AreByName functions.items result.items }
{
    functions.sort_unstable_by(|one, other| one.name.cmp(&other.name));
    functions
}
