// Laws of plans.
ghost use Rattle.module_names.specs.Names.{sha1_digest};
ghost use Rattle.sj_split_laws.specs.Laws.{HaveOneLength, IdsAreNotInternal, ModulesAreComponents, ModulesAreHomes, ModulesAreTags, NamesDiffer, PlacedAreReached, PlacedWhere, PlansAreOne};

/// No two modules of a plan have one name, where the digests have one length and no public id begins with `internal-`.
pub fn names_differ()
    ensures { NamesDiffer }
{}

/// The digests by which `plan` names modules have one length.
pub fn digests_have_one_length()
    ensures { HaveOneLength sha1_digest }
{}

/// No public id of a link's entries begins with `internal-`.
pub fn ids_are_not_internal()
    ensures { IdsAreNotInternal }
{}

/// A class that a public module reaches is in a module of the plan exactly where its module is public or a class of its module owns a
/// piece.
pub fn placed_where_public_or_owning()
    ensures { PlacedWhere }
{}

/// A class in a module of a plan is reached by a public module.
pub fn placed_classes_are_reached()
    ensures { PlacedAreReached }
{}

/// Two classes that are in modules of a plan are in the same one exactly where they have the same home.
pub fn modules_are_homes()
    ensures { ModulesAreHomes }
{}

/// In smallest style two classes that are in modules of the plan are in one exactly where walks lead both ways between them.
pub fn modules_are_components()
    ensures { ModulesAreComponents }
{}

/// In fewest style two classes that are in modules of the plan are in one exactly where the same public modules reach them.
pub fn modules_are_tags()
    ensures { ModulesAreTags }
{}

/// There is one plan, where the names of its modules differ.
pub fn plans_are_one()
    ensures { PlansAreOne }
{}
