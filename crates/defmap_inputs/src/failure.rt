//! Why the program ends without an answer, and the statuses that it ends with.
ghost use Rattle.std.specs.Prelude.{◌≡◌};
ghost use Rattle.defmap_inputs.specs.Failures.{line_of, status_of};

use std::alloc::{AllocError, AllocFailed};
use std::io::{self, ErrorKind};
use std::process::ExitCode;

/// The status that a run ends with.
#[derive(Clone, Copy, PartialEq, Eq, Debug)]
pub enum Status {
    /// All that was asked was told.
    Fine,
    /// What was asked for is not there.
    Absent,
    /// The words of the command line are no wish.
    Misused,
    /// Something could not be read.
    Unreadable,
    /// What was asked for stands behind a type, where names are not looked up.
    Behind,
}

impl Status {
    /// The number of the status: 0 to 4.
    pub fn code(self) -> ExitCode {
        match self {
            Status::Fine => ExitCode::SUCCESS,
            Status::Absent => ExitCode::from(1),
            Status::Misused => ExitCode::from(2),
            Status::Unreadable => ExitCode::from(3),
            Status::Behind => ExitCode::from(4),
        }
    }
}

/// Why there is no answer: the status, and a line that says what to do.
#[derive(Drop)]
pub enum Failure {
    Told(Status, String),
    OutOfMemory,
    /// The standard output or the standard error takes nothing.
    NoOutput,
    /// Who read the output needs no more of it.
    Closed,
}

impl From<AllocError> for Failure {
    fn from(_refused: AllocError) -> Failure {
        Failure::OutOfMemory
    }
}

impl<T: Drop> From<AllocFailed<T>> for Failure {
    fn from(_refused: AllocFailed<T>) -> Failure {
        Failure::OutOfMemory
    }
}

impl From<io::Error> for Failure {
    fn from(refused: io::Error) -> Failure {
        match refused.kind() {
            ErrorKind::BrokenPipe => Failure::Closed,
            _ => Failure::NoOutput,
        }
    }
}

impl Failure {
    /// The status to end with.
    pub fn status(&self) -> Status
        ensures { result ≡ status_of self.now }
    {
        match self {
            Failure::Told(status, _line) => *status,
            Failure::OutOfMemory | Failure::NoOutput => Status::Unreadable,
            Failure::Closed => Status::Fine,
        }
    }

    /// What to tell; nothing where nobody reads on.
    pub fn line(&self) -> &str
        ensures { result.now ≡ line_of self.now }
    {
        match self {
            Failure::Told(_status, line) => line.as_str(),
            Failure::OutOfMemory =>
                "memory ran out: give the program more of it, or a smaller --limit",
            Failure::NoOutput => "the output cannot be written: see where it leads",
            Failure::Closed => "",
        }
    }
}
