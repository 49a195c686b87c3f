//! Each call of a public method resolves in a world: to a body, to an abstract method, or to none.
//!
//! The function here is a law: it does nothing when it runs, and its clause is a theorem.
#![tactic(auto)]

ghost use Rattle.resolution_laws.specs.Laws.{EachCallResolves};

/// In a world in order each public method name resolves for each class.
pub fn each_call_resolves()
    ensures { EachCallResolves }
{}
