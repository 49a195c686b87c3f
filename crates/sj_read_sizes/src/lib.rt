//! How many trees the bodies of a class file are: no more than the file has bytes.
//!
//! The function here is a law: it does nothing when it runs, and its clause is a theorem.
#![tactic(auto)]

ghost use Rattle.sj_read_sizes.specs.Sizes.{EachBodyIsSmall};

/// The body of a method of a class has no more trees than the file of the class has bytes, since each tree takes a byte for its form.
pub fn bodies_have_no_more_trees_than_bytes()
    ensures { EachBodyIsSmall }
{}
