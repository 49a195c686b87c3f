// A law of the check.
ghost use Rattle.sj_local.specs.Laws.{ChecksOnce};

/// A class breaks no rule, or it has one first rule that it breaks, and one first place where it does.
pub fn check_is_one()
    ensures { ChecksOnce }
{}
