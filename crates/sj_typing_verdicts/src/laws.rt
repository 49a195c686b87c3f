// Laws of verdicts.
ghost use Rattle.sj_typing_verdicts.specs.Laws.{ChecksAreVerdicts, VerdictIsOne};

/// Where the check of a method with a body comes to an end in a world, that end is the verdict on the method there: `Ok` that it is typed,
/// `Refused` what fails first. So a log that was kept and holds in another world tells the verdict there without another check.
pub fn checks_are_verdicts()
    ensures { ChecksAreVerdicts }
{}

/// A method that is typed in a world isn't untyped there, and what fails first is one thing.
pub fn verdict_is_one()
    ensures { VerdictIsOne }
{}
