// How a run ends.
ghost use Rattle.std.specs.Prelude.{◌≡◌};
ghost use Rattle.sjsir.specs.ExitCode.{exit_code};

/// How a run ended.
#[derive(Clone, Copy, Debug, PartialEq, Eq)]
pub enum Status {
    /// All was done, and nothing was refused.
    Done,
    /// All was answered, and a file or a listing was refused.
    SomeRefused,
    /// The words are no command.
    Usage,
    /// A file could not be read.
    ReadFault,
    /// A file or a line could not be written.
    WriteFault,
    /// No memory was left.
    NoMemory,
}

impl Status {
    /// The exit status of the program.
    pub fn exit_code(self) -> u8
        ensures { result ≡ exit_code self }
    {
        match self {
            Status::Done => 0,
            Status::SomeRefused => 1,
            Status::Usage => 2,
            Status::ReadFault => 3,
            Status::WriteFault => 4,
            Status::NoMemory => 5,
        }
    }
}
