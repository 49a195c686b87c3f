// How a run ends.
ghost use Rattle.std.specs.Prelude.{◌≡◌};
ghost use Rattle.sjslink.specs.ExitCode.{exit_code};

/// How a run ended.
#[derive(Clone, Copy, Debug, PartialEq, Eq)]
pub enum Status {
    /// Every folder was accepted.
    Done,
    /// All folders were answered, and one or more were refused.
    SomeRefused,
    /// The words are no command.
    Usage,
    /// A folder or a file could not be read.
    ReadFault,
    /// A file or a line could not be written.
    WriteFault,
    /// No memory was left.
    NoMemory,
    /// The entries file is bad at this line, counted from 1, or as a whole at 0.
    BadEntries(u32),
}

impl Status {
    /// The exit status of the program.
    pub fn exit_code(self) -> u8
        ensures { result ≡ exit_code self }
    {
        match self {
            Status::Done => 0,
            Status::SomeRefused => 1,
            Status::Usage => 2,
            Status::ReadFault => 3,
            Status::WriteFault => 4,
            Status::NoMemory => 5,
            Status::BadEntries(_) => 6,
        }
    }
}
