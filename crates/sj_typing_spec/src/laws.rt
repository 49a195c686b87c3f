// Laws of the check.
ghost use Rattle.sj_typing_spec.specs.Laws.{EqualAnswersGiveEqualChecks};

/// Where two worlds give the same answer to each question that the check of a method asks in the one, the check asks the same questions and
/// gives the same result in both, apart from positions; and so does the check of a definition that is the same apart from positions.
pub fn equal_answers_give_equal_checks()
    ensures { EqualAnswersGiveEqualChecks }
{}
