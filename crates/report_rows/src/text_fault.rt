use std::error::Error;
use std::fmt;

/// Why a text tells nothing.
#[derive(Clone, Copy, Debug, PartialEq, Eq)]
pub enum TextFault {
    /// It is no report: the line of this number may not stand where it does, or is lacking.
    Line(u64),
    /// Memory ran out.
    NoMemory,
}

impl fmt::Display for TextFault {
    fn fmt<W: fmt::Write>(&self, f: &mut fmt::Formatter<W>) -> fmt::Result {
        match self {
            TextFault::Line(number) => write!(f, "no report: line {number}"),
            TextFault::NoMemory => f.write_str("out of memory"),
        }
    }
}

impl Error for TextFault {}
