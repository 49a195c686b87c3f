//! The verdict on what is read of a folder.
#![tactic(auto)]

ghost use Rattle.read_verdicts.specs.Laws.{VerdictOnWhatIsRead};

/// The verdict on what is read of a folder is that on the folder.
pub fn verdict_on_what_is_read()
    ensures { VerdictOnWhatIsRead }
{}
