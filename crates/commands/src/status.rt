//! How a command ends.

ghost use Rattle.std.specs.Prelude.{◌≡◌};
ghost use Rattle.commands.specs.Lines.{code_of};

/// How a command ended, as the program's exit status tells it.
#[derive(Clone, Copy, Debug, PartialEq, Eq)]
pub enum Status {
    /// The command did what it is for.
    Done,
    /// The input has a fault, which a line on the error stream names.
    Refused,
    /// The words are no command.
    Usage,
    /// A file couldn't be read.
    ReadFault,
    /// A stream took no more.
    WriteFault,
    OutOfMemory,
    /// The input is beyond a limit, which a line on the error stream names.
    Limit,
    /// The run ended by a throw.
    Threw,
    /// The run left the profile.
    Left,
    /// The run didn't end within its steps.
    StepsSpent,
    /// A host failed.
    HostFault,
}

impl Status {
    /// The number of the status, from 0 to 10.
    pub fn code(&self) -> u8
        ensures { result ≡ code_of self.now }
    {
        match self {
            Status::Done => 0,
            Status::Refused => 1,
            Status::Usage => 2,
            Status::ReadFault => 3,
            Status::WriteFault => 4,
            Status::OutOfMemory => 5,
            Status::Limit => 6,
            Status::Threw => 7,
            Status::Left => 8,
            Status::StepsSpent => 9,
            Status::HostFault => 10,
        }
    }
}
