// The laws of the generated files.
ghost use Rattle.sj_gen.specs.Paths.{GeneratedPathsRise};
ghost use Rattle.sj_gen.specs.ReadBack.{GeneratedFilesAreReadBack};

/// Each file of a generated folder is the file of its class, and so is read back as that class.
pub fn generated_files_are_read_back()
    ensures { GeneratedFilesAreReadBack }
{}

/// No two files of a generated folder have the same path, and each path is below the next in byte order.
pub fn generated_paths_rise()
    ensures { GeneratedPathsRise }
{}
