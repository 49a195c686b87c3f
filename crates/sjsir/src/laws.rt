// What the clauses of a run rest on: the words lead to one thing.
ghost use Rattle.sjsir.specs.Output.{HasOneOutput};

/// The words and what the folders hold lead to one output at most.
pub fn output_is_one()
    ensures { HasOneOutput }
{}
