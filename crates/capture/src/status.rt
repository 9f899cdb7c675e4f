//! How a command ended.
ghost use Rattle.std.specs.Prelude.{◌≡◌};
ghost use Rattle.capture.specs.Status.{code_of};

/// How a command ended. It is this project's own.
#[derive(Clone, Copy)]
pub enum Status {
    /// The input was read, and the whole line was written.
    Accepted,
    /// The input was refused, and the whole line was written.
    Refused,
    /// The words are no command line.
    Usage,
    /// The stream is no document of the command.
    BadDocument,
    /// The source failed.
    ReadFault,
    /// The sink failed.
    WriteFault,
    /// There was no memory.
    Memory,
    /// The stream is longer than 16,777,216 bytes.
    TooLong,
}

impl Status {
    /// The number that the program ends with.
    pub fn code(self) -> u8
        ensures { result ≡ code_of self }
    {
        match self {
            Status::Accepted => 0,
            Status::Refused => 1,
            Status::Usage => 2,
            Status::BadDocument => 3,
            Status::ReadFault => 4,
            Status::WriteFault => 5,
            Status::Memory => 6,
            Status::TooLong => 7,
        }
    }
}
