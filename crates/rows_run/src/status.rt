ghost use Rattle.std.specs.Prelude.{◌≡◌};
ghost use Rattle.rows_run.specs.Statuses.{code_of, status_of};

use crate::fault::RowsFault;

/// How a call ended. The program ends with its code.
#[derive(Clone, Copy, Debug, PartialEq, Eq)]
pub enum Status {
    /// The rows were written.
    Done,
    /// The words aren't in the grammar of the command line.
    Usage,
    /// The report couldn't be opened.
    OpenFault,
    /// A read of it failed.
    ReadFault,
    /// Memory ran out.
    NoMemory,
    /// A write failed.
    WriteFault,
    /// The text is no report.
    NoReport,
}

impl Status {
    /// The exit code, with the meaning that the same code has where a report is written or judged.
    pub fn code(&self) -> u8
        ensures { result ≡ code_of self.now }
    {
        match self {
            Status::Done => 0,
            Status::Usage => 1,
            Status::OpenFault => 3,
            Status::ReadFault => 5,
            Status::NoMemory => 7,
            Status::WriteFault => 8,
            Status::NoReport => 9,
        }
    }
}

/// The status of a call that ended with a fault.
pub fn status_of(fault: &RowsFault) -> Status
    ensures { result ≡ status_of fault.now }
{
    match fault {
        RowsFault::Usage => Status::Usage,
        RowsFault::Open => Status::OpenFault,
        RowsFault::Read => Status::ReadFault,
        RowsFault::Line(_) => Status::NoReport,
        RowsFault::NoMemory => Status::NoMemory,
    }
}
