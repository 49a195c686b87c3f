// The laws of the class files of a folder.
ghost use Rattle.folder_files.specs.Rows.{RowsHold};

/// The class files of the folders that are worked out are as their rows say.
pub fn rows_hold()
    ensures { RowsHold }
{}
