ghost use Rattle.std.specs.Prelude.{◌≡◌};
ghost use Rattle.run_inputs.specs.Statuses.{code_of, finding_status, status_of};

use emission_text::Fault;
use report_check::Finding;

/// How a run ended. The program ends with its code.
#[derive(Clone, Copy, Debug, PartialEq, Eq)]
pub enum Status {
    /// The report was written.
    Done,
    /// The words aren't in the grammar of the command line.
    Usage,
    /// The definitions were read and refused.
    BadDefs,
    /// A file couldn't be opened.
    OpenFault,
    /// A record of a source was refused.
    BadRow,
    /// A read of a file failed.
    ReadFault,
    /// A source has too many bytes, or a shard would have too many entries.
    Full,
    /// Memory ran out.
    NoMemory,
    /// A write of the report failed.
    WriteFault,
    /// The report that was judged isn't lawful.
    Unlawful,
}

impl Status {
    /// The exit code: 0 to 9, in the order of the variants.
    pub fn code(&self) -> u8
        ensures { result ≡ code_of self.now }
    {
        match self {
            Status::Done => 0,
            Status::Usage => 1,
            Status::BadDefs => 2,
            Status::OpenFault => 3,
            Status::BadRow => 4,
            Status::ReadFault => 5,
            Status::Full => 6,
            Status::NoMemory => 7,
            Status::WriteFault => 8,
            Status::Unlawful => 9,
        }
    }
}

/// The status of a run that ended with a fault.
pub fn status_of(fault: &Fault) -> Status
    ensures { result ≡ status_of fault.now }
{
    match fault {
        Fault::Usage => Status::Usage,
        Fault::Defs(window_defs::DefsFault::NoMemory) => Status::NoMemory,
        Fault::Defs(_) => Status::BadDefs,
        Fault::Unopened { .. } | Fault::ReportOpen => Status::OpenFault,
        Fault::Row { .. } => Status::BadRow,
        Fault::Read { .. } | Fault::ReportRead => Status::ReadFault,
        Fault::FullSource { .. } | Fault::FullShard { .. } | Fault::ReportFull => Status::Full,
        Fault::NoMemory => Status::NoMemory,
    }
}

/// The status of a check that ended with a finding.
pub fn status_of_finding(finding: &Finding) -> Status
    ensures { result ≡ finding_status finding.now }
{
    match finding {
        Finding::Lawful => Status::Done,
        Finding::Text { .. } | Finding::Shards { .. } | Finding::Journal { .. } => Status::Unlawful,
    }
}
