// Laws of entries files.
ghost use Rattle.entries_file.specs.Laws.{EntriesAreValid};
ghost use Rattle.entries_file.specs.Rows.{RowsHold};

/// The rows of the rule that are worked out hold.
pub fn rows_hold()
    ensures { RowsHold }
{}

/// What a file says are the entries of a link: 1 to 1,000, each in a public module and of no constructor.
pub fn entries_are_valid()
    ensures { EntriesAreValid }
{}
