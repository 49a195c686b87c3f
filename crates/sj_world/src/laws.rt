// Laws of worlds, and worked worlds.
ghost use Rattle.std.specs.Prelude.{◌≡◌, ◌∷◌, [], Some, None, codes};
ghost use Rattle.sj_world.specs.Known.{object};
ghost use Rattle.sj_world.specs.Ancestors.{parents, next_on_chain, IsAncestor, IsOnCycle};
ghost use Rattle.sj_world.specs.Rows.{family, capped, ring, number};
ghost use Rattle.sj_world.specs.Laws.{AncestorsRise, AncestorsGrow, SubtypesReflexive, SubtypesTransitive, BodiesInherited, ResolvesOnce, OneWorld, OneRefusal, WorldOrRefusal};

/// Where nothing stands above `java.lang.Object`, an ancestor's ancestor is an ancestor.
pub fn ancestors_rise()
    ensures { AncestorsRise }
{}

/// Where no class stands above `java.lang.Object` or writes a hijacked class, a class has more ancestors than its superclass.
pub fn ancestors_grow()
    ensures { AncestorsGrow }
{}

/// Each type is a subtype of itself; and where nothing stands above `java.lang.Object`, a subtype's subtype is a subtype.
pub fn subtypes_are_ordered()
    ensures reflexive { SubtypesReflexive }
    ensures transitive { SubtypesTransitive }
{}

/// A class without a body for a method takes the body that its superclass takes from the chain.
pub fn bodies_are_inherited()
    ensures { BodiesInherited }
{}

/// A call resolves in one way.
pub fn calls_resolve_once()
    ensures { ResolvesOnce }
{}

/// The same classes make one world, or are refused for one reason, as long as there is memory.
pub fn worlds_are_one()
    ensures world { OneWorld }
    ensures refusal { OneRefusal }
    ensures either { WorldOrRefusal }
{}

/// Worked worlds. Above `B` stands `A`; above `N`, whose superclass isn't there, nothing by a path, and `java.lang.Object` all the
/// same; above `java.lang.Byte`, which isn't there, what stands above `java.lang.Integer`; above `java.lang.Long`, which isn't there,
/// `java.lang.Object`; above a class that isn't known nothing. What is written above `java.lang.Object` stands above a class where a
/// path leads there, and not above each. The chain of an interface ends with it. In a ring of two each stands on a cycle.
pub fn worked_worlds()
    ensures below_class { parents family (codes "B") ≡ codes "A" ∷ [] }
    ensures with_interface { parents family (codes "A") ≡ object ∷ codes "J" ∷ [] }
    ensures below_absent { parents family (codes "N") ≡ [] }
    ensures object_above_absent { IsAncestor family (codes "N") object }
    ensures byte { parents family (codes "java.lang.Byte") ≡ number ∷ [] }
    ensures long { parents family (codes "java.lang.Long") ≡ object ∷ [] }
    ensures unknown { parents family (codes "Gone") ≡ [] }
    ensures chain_of_byte { next_on_chain family (codes "java.lang.Byte") ≡ Some number }
    ensures chain_of_interface { next_on_chain family (codes "J") ≡ None }
    ensures inherited_interface { IsAncestor family (codes "B") (codes "I") }
    ensures above_object_by_path { IsAncestor capped (codes "B") (codes "Top") }
    ensures above_object_from_absent { IsAncestor capped (codes "java.lang.Integer") (codes "Top") }
    ensures above_object_not_by_path { IsAncestor capped (codes "A") (codes "Top") → ⊥ }
    ensures cycle { IsOnCycle ring (codes "A") }
{}
