//! Faults of the lines of a file of rows.

use std::alloc::AllocError;
use std::fmt;

/// The reason why a line of a file of rows is not a valid row.
#[derive(Clone, Copy, Drop)]
pub enum RowFault {
    /// The row has another number of fields than six.
    Fields(usize),
    NoReason,
    Status,
    /// What stands in brackets is no option.
    Ends,
    Naming,
    NoName,
    /// What is to be changed does not stand there.
    NoPlace,
    /// A text is shorter than the row says.
    Short,
    Repeat,
    /// The run that makes a text does not end with the status 0.
    Making,
}

/// Why a line of a file of rows is not read: memory ran out, or it is not a valid row.
#[derive(Clone, Copy, Drop)]
pub enum RowError {
    Memory,
    Fault(RowFault),
}

impl fmt::Display for RowFault {
    fn fmt<W: fmt::Write>(&self, f: &mut fmt::Formatter<W>) -> fmt::Result {
        let text = match self {
            RowFault::Fields(count) => {
                let expected = "words | input | status | out | err | why";
                return write!(f, "{count} fields in place of {expected}");
            }
            RowFault::NoReason => "no reason why the row stands",
            RowFault::Status => "the status is no number from 0 to 255",
            RowFault::Ends => {
                "what stands in brackets is none of `pieces N`, `read N`, `write N` and `tell N`"
            }
            RowFault::Naming => "a text without a name, or with one that stands already",
            RowFault::NoName => "no text has this name",
            RowFault::NoPlace => "what is to be changed does not stand there",
            RowFault::Short => "the text is shorter than that",
            RowFault::Repeat => {
                "what repeats is not written `COUNT x BYTE`, with the byte in hexadecimal"
            }
            RowFault::Making => "the run that makes a text does not end with the status 0",
        };
        f.write_str(text)
    }
}

impl<E: Into<AllocError> + Drop> From<E> for RowError {
    fn from(_error: E) -> RowError {
        RowError::Memory
    }
}

impl From<RowFault> for RowError {
    fn from(fault: RowFault) -> RowError {
        RowError::Fault(fault)
    }
}
