//! The agreement of the two meanings: what files show by ECMA-262, and what the initializers of their classes show by the IR.
//!
//! `specs/` has what it is that files agree with classes. The function here is a law: it does nothing when it runs, and its clause is a theorem.
#![tactic(auto)]

ghost use Rattle.std.specs.Prelude.{◌≡◌, List};
ghost use Rattle.js_mean.specs.Shows.{File, IsRead};
ghost use Rattle.js_mean.specs.States.{Program};
ghost use Rattle.sj_agree.specs.Agrees.{SpellsOne};

/// Files are read as one program at most, where bytes spell at most one module: so to agree as they are read is to agree.
pub fn files_are_read_in_one_way()
    ensures { SpellsOne → (files : List File) (one other : Program) → IsRead files one → IsRead files other → one ≡ other }
{}
