//! The exit status of the process.

ghost use Rattle.std.specs.Prelude.{◌≡◌};
ghost use Rattle.tall_steps.specs.Statuses.{code_of};

/// How a run ended.
#[derive(Clone, Copy, Debug, PartialEq, Eq)]
pub enum Status {
    /// Every statement ran and all text was written.
    Done,
    /// The script or the data has a fault, or a file isn't there.
    Fault,
    /// The words of the command line aren't the command's.
    Usage,
    /// A call that opens or reads a file failed, a file gave too many bytes, or it changed.
    Read,
    /// A call that writes failed.
    Write,
    /// No memory was left.
    Memory,
}

impl Status {
    /// The exit status of the process, as docs/LANGUAGE.md, "Statuses", lists them.
    pub fn code(self) -> u8
        ensures { result ≡ code_of self }
    {
        match self {
            Status::Done => 0,
            Status::Fault => 1,
            Status::Usage => 2,
            Status::Read => 3,
            Status::Write => 4,
            Status::Memory => 5,
        }
    }
}
