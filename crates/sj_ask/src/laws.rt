// Laws of questions.
ghost use Rattle.sj_ask.specs.Laws.{AnswersAreOne, EqualAnswers, HeldAnswersRun};

/// Two answers to one question, in one world and for one member, are the same apart from positions.
pub fn answers_are_one()
    ensures { AnswersAreOne }
{}

/// Which results count as the same.
pub trait Sameness<A, B> {
    ghost same: { A → B → Type 0 };
}

/// Of two tasks that ask the same, and go on alike at answers that are the same apart from positions: where what the one asks in a world
/// has the same answers in another world, the other asks the same there and ends in the same way. Which results are the same is the
/// caller's word.
pub fn equal_answers_give_equal_results<E, A, B, S: Sameness<A, B>>()
    ensures { EqualAnswers E A B S.same }
{}

/// Where what a task asks in a world has the same answers in another world, the task asks just that there, and ends in the same way.
pub fn held_answers_run<E, A>()
    ensures { HeldAnswersRun E A }
{}
