// Laws of verdicts, and worked ones.
ghost use Rattle.folder_judging_spec.specs.Laws.{VerdictIsOne, NeededBodiesAreThere, NoFolderIsWithout};
ghost use Rattle.folder_judging_spec.specs.Rows.{WorkedVerdicts};

/// No folder has two verdicts.
pub fn verdict_is_one()
    ensures { VerdictIsOne }
{}

/// Where each class keeps the local rules and each reference resolves, each body that is needed is defined and has a body.
pub fn needed_bodies_are_there()
    ensures { NeededBodiesAreThere }
{}

/// No folder is without a verdict: it can't be that no verdict is that of the folder.
pub fn no_folder_is_without_verdict()
    ensures { NoFolderIsWithout }
{}

/// Small folders with their verdicts.
pub fn worked_verdicts()
    ensures { WorkedVerdicts }
{}
