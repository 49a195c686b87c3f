// Laws of reachable facts.
ghost use Rattle.sj_reach_spec.specs.Laws.{ReachableFactsAreClosed, ReachableFactsAreLeast};
ghost use Rattle.sj_reach_spec.specs.Rows.{WorkedFacts, WorkedReachability, WorkedAbstractTargets, IsUnneeded, IsToldByItsClassAlone};

/// What follows by a rule from facts that are reachable is reachable.
pub fn reachable_facts_are_closed()
    ensures { ReachableFactsAreClosed }
{}

/// Whatever holds of all that follows by a rule from facts of which it holds, holds of each reachable fact.
pub fn reachable_facts_are_least()
    ensures { ReachableFactsAreLeast }
{}

/// Small folders, and facts that are reachable in them.
pub fn worked_facts()
    ensures { WorkedFacts }
{}

/// Small folders, each with what is told of it: one for each code.
pub fn worked_reachability()
    ensures { WorkedReachability }
{}

/// Small folders in which a call resolves to a method without a body, and in which a reflective call reaches one.
pub fn worked_abstract_targets()
    ensures { WorkedAbstractTargets }
{}

/// A small folder in which a class isn't needed, since only a body that isn't reachable names it; and one in which a member of a class that isn't
/// there isn't told beside the class.
pub fn worked_limits()
    ensures unneeded { IsUnneeded }
    ensures alone { IsToldByItsClassAlone }
{}
