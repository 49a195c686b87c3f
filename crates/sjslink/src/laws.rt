// What the clauses of a run rest on: each of their words leads to one thing.
ghost use Rattle.sjslink.specs.Laws.{ReadsOneProgram, HasOneOutput};

/// Files are read as one program at most: so nothing hangs on which program is meant where files show what classes show.
pub fn programs_are_read_once()
    ensures { ReadsOneProgram }
{}

/// The words and what the folders hold lead to one output at most.
pub fn output_is_one()
    ensures { HasOneOutput }
{}
