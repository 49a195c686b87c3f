//! What an evaluation with a bound comes to, and when two meanings agree: the ground on which the meaning of the IR and the meaning
//! of the emitted code both stand.
//!
//! `specs/` has the outcome (lines and an ending), how outcomes are put one behind the other, what a program shows, and the
//! agreement of two meanings. The one function here is a law.
#![tactic(auto)]

ghost use Rattle.std.specs.Prelude.{◌≡◌};
ghost use Rattle.outcomes.specs.Outcome.{Out, done, then_do};

/// A law of outcomes, which does nothing when it runs: to go on from a result is to go on, to go on with nothing more changes
/// nothing, and it is all one which two of three are put together first.
pub fn outcomes_in_sequence<A, B, C>()
    ensures left { (a : A) (f : A → Out B) → then_do (done a) f ≡ f a }
    ensures right { (o : Out A) → then_do o done ≡ o }
    ensures associative { (o : Out A) (f : A → Out B) (g : B → Out C) → then_do (then_do o f) g ≡ then_do o (λ a. then_do (f a) g) }
{}
