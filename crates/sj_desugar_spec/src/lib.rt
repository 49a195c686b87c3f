//! Desugaring: a method's tree as statements and expressions of the core, in which each operand is evaluated where it was.
//!
//! `specs/` defines it. The functions here are laws.
#![tactic(auto)]

ghost use Rattle.sj_desugar_spec.specs.Rows.{ReceiversAreChecked, ThrowsAreCaught, FinalizersRun, ModulesAreLoaded, ArraysAreMade};

/// Worked trees: a receiver that is never null isn't checked, and the check of any other comes in front of the arguments.
pub fn worked_receivers()
    ensures { ReceiversAreChecked }
{}

/// Worked trees: the one object of a class is loaded where its value isn't used too, and what is stored is evaluated in front of the store.
pub fn worked_modules()
    ensures { ModulesAreLoaded }
{}

/// Worked trees: a new array is never null, and the check of any other comes in front of the index and of the new value of an element. An item or a new
/// value goes where an element is expected.
pub fn worked_arrays()
    ensures { ArraysAreMade }
{}

/// Worked trees: the value of a block and that of its handler go where the value of the whole goes.
pub fn worked_tries()
    ensures { ThrowsAreCaught }
{}

/// Worked trees: a value that leaves to a label by a jump travels with the jump, but in the emitted code it is in the label's variable before the jump is
/// made. A finalizer may write such a variable and then give its jump up, where another try in it ends with a jump of its own. So where a finalizer holds
/// a try, the variables that its jumps may write are kept in front of it and given back behind it.
pub fn worked_finalizers()
    ensures { FinalizersRun }
{}
