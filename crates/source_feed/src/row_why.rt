use std::error::Error;
use std::fmt;

/// Why a record is refused: the first of these, in this order.
#[derive(Clone, Copy, Debug, PartialEq, Eq)]
pub enum RowWhy {
    /// Its first field is none of `t`, `m` and `w`, and it isn't a header in the first place.
    Kind,
    /// It has the wrong number of fields, or one that has to be empty isn't.
    Fields,
    /// Its time isn't 1 to 19 digits of at most 10^15.
    Time,
    /// Its value isn't at most one sign and 1 to 19 digits, from -2^63 to 2^63 - 1.
    Value,
    /// Its key isn't 1 to 64 bytes without control characters.
    Key,
}

impl fmt::Display for RowWhy {
    fn fmt<W: fmt::Write>(&self, f: &mut fmt::Formatter<W>) -> fmt::Result {
        f.write_str(match self {
            RowWhy::Kind => "a record begins with t, m or w",
            RowWhy::Fields => "a record has its kind's number of fields",
            RowWhy::Time => "a time has 1 to 19 digits, and is at most 10^15",
            RowWhy::Value => "a value has 1 to 19 digits, and is from -2^63 to 2^63 - 1",
            RowWhy::Key => "a key has 1 to 64 bytes, and no control characters",
        })
    }
}

impl Error for RowWhy {}
