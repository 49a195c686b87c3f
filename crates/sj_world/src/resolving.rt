// Which method a call runs.
ghost use Rattle.std.specs.Prelude.{◌≡◌, MatchOption, Contains};
ghost use Rattle.std.specs.Ordering.{nat_cmp};
ghost use Rattle.std.specs.Cmp.Lexicographic.{slice_cmp};
ghost use Rattle.std.specs.List.Sorted.{IsSorted};
ghost use Rattle.sj_world.specs.Resolution.{IsNearest, HasNoneOnChain, IsFirstBody, HaveNoBody, IsLeastCandidate, HasNoCandidate, ResolvesAbove, Resolves, answer};
ghost use Rattle.sj_world.specs.Ancestors.{IsAncestor};

use crate::World;
use crate::members::Owned;
use sj_names::{ClassName, MethodName};
use sj_trees::MethodDef;

/// What a call of a public method runs on an instance of a class.
#[derive(Drop)]
pub enum Resolution<'w> {
    /// This body, of the class of this name.
    Target(&'w MethodDef, &'w ClassName),
    /// The method is declared, but no body of it is to be run.
    Abstract,
    /// No ancestor declares the method.
    Missing,
}

impl World {
    /// What a call of a public method runs on an instance of a class: the first body on the chain of superclasses, else the least
    /// in byte order of the interfaces' bodies that no other one overrides.
    pub fn resolve(&self, class: &ClassName, method: &MethodName) -> Resolution<'_>
        ensures { Resolves self.now class.now method.now (answer result) }
    {
        match self.nearest(class, method) {
            Some(found) => Resolution::Target(found.method, found.owner),
            None => self.resolve_above(class, method),
        }
    }

    // What a call runs where no class on the chain has a body.
    fn resolve_above(&self, class: &ClassName, method: &MethodName) -> Resolution<'_>
        ensures { ResolvesAbove self.now (IsAncestor self.now class.now) method.now (answer result) }
    {
        match self.ancestors(class) {
            Some(ancestors) => self.resolve_among(ancestors, method),
            None => Resolution::Missing,
        }
    }

    fn resolve_among(&self, ancestors: &[ClassName], method: &MethodName) -> Resolution<'_>
        requires { IsSorted (slice_cmp nat_cmp) ancestors.now }
        ensures { ResolvesAbove self.now (Contains ancestors.now) method.now (answer result) }
    {
        match self.least_candidate(ancestors, method) {
            Some(found) => Resolution::Target(found.method, found.owner),
            None if self.is_declared(ancestors, method) => Resolution::Abstract,
            None => Resolution::Missing,
        }
    }

    // The first body on the chain.
    fn nearest(&self, class: &ClassName, method: &MethodName) -> Option<Owned<'_>>
        ensures { MatchOption result (HasNoneOnChain self.now class.now method.now) (λ found. IsNearest self.now class.now method.now found.method.now found.owner.now) }
    {
        match self.chain(class) {
            Some(chain) => self.first_body(chain, method),
            None => None,
        }
    }

    fn first_body(&self, names: &[ClassName], method: &MethodName) -> Option<Owned<'_>>
        ensures { MatchOption result (HaveNoBody self.now method.now names.now) (λ found. IsFirstBody self.now method.now names.now found.method.now found.owner.now) }
    {
        for name in names {
            if let Some(found) = self.body_at(name, method) {
                return Some(found);
            }
        }
        None
    }

    // The least in byte order of the interfaces' bodies that no other one overrides.
    fn least_candidate(&self, ancestors: &[ClassName], method: &MethodName) -> Option<Owned<'_>>
        requires { IsSorted (slice_cmp nat_cmp) ancestors.now }
        ensures { MatchOption result (HasNoCandidate self.now (Contains ancestors.now) method.now) (λ found. IsLeastCandidate self.now (Contains ancestors.now) method.now found.method.now found.owner.now) }
    {
        for name in ancestors {
            if let Some(found) = self.candidate(ancestors, name, method) {
                return Some(found);
            }
        }
        None
    }
}
