//! What the emission of a method asks of its world: the targets of its public calls on receivers, and where a receiver may be a primitive value.
//!
//! `specs/` has the calls of a body, and the emission as a task of questions and answers. The function here is a law: it does nothing when it runs.
#![tactic(auto)]

ghost use Rattle.sj_emit_expr_questions.specs.Laws.{EqualAnswersGiveEqualFunctions};

use sj_names::{ClassName, Member};

/// What emission has to ask for what is called on a receiver.
#[derive(Drop)]
pub enum Inquiry {
    /// The target of this public member.
    Target(Member),
    /// Whether a hijacked class stands below this class.
    Hijacked(ClassName),
}

/// Where two worlds give the same answer to each question that the emission of a method asks in the one, it asks the same questions in both and gives the
/// same function.
pub fn equal_answers_give_equal_functions()
    ensures { EqualAnswersGiveEqualFunctions }
{}
