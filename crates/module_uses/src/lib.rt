//! What the code of one file of a plan can use: of what is there at all, what the pieces of the file use.
//!
//! `specs/` has what of all that can be used is used, by a test of bindings, and the test of a file. The functions here are laws: they do nothing when they run, and their
//! clauses are theorems.
#![tactic(auto)]

ghost use Rattle.module_uses.specs.Laws.{BodiesUseNoMore, FilesUse, RestrictedIsAmong};

/// Take a body that is built with what is there, each of whose divisors is of the type that is divided. It is built with what of it its code uses.
pub fn bodies_use_no_more()
    ensures { BodiesUseNoMore }
{}

/// What is used of what is there is among it, and a call of a public member runs the same.
pub fn restricted_is_among()
    ensures { RestrictedIsAmong }
{}

/// The test of a file is passed by what its pieces use and what its initializers call, and by nothing else.
pub fn files_use()
    ensures { FilesUse }
{}
