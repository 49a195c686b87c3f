// Who answers questions.
ghost use Rattle.std.specs.Prelude.{◌≡◌, ◌∷◌, [], IfOk, OnErr};
ghost use Rattle.sj_ask.specs.Stands.{Stand};
ghost use Rattle.sj_ask.specs.Answers.{IsAnswer};
ghost use Rattle.sj_ask.specs.Told.{Told, told_more};

use crate::{Answer, Question};
use sj_names::NoMemory;
use std::alloc::Global;

/// Who answers questions, on a world with what is known of its classes, for the member that is worked on.
///
/// `stand` is that world and that member. `told` is, where the oracle tells it, the log of the questions that it answered, with the
/// answers that it gave, under the member for which it keeps them.
pub trait Oracle {
    ghost stand: { Self → Stand };

    ghost told: { Self → Told };

    /// The answer to a question, apart from positions. A call that answers adds the question with its answer to the end of what the
    /// oracle tells; one that finds no memory leaves that.
    fn answer(&mut self, alloc: Global, question: &Question) -> Result<Answer, NoMemory>
        ensures stand { stand self.new ≡ stand self.old }
        ensures answer { IfOk result (IsAnswer (stand self.old) question.now) }
        ensures told { IfOk result (λ a. told self.new ≡ told_more (told self.old) ((question.now, a) ∷ [])) }
        ensures left { OnErr result (told self.new ≡ told self.old) };
}
