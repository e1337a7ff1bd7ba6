//! The faults of class lists.

ghost use Rattle.std.specs.Prelude.{◌≡◌};
ghost use Rattle.gs_filter.specs.declared.fault.ClassError.TheVariants.{Fault, Memory};

use std::alloc::{AllocError, AllocFailed};
use std::error::Error;
use std::fmt;

/// The first rule that class lists break. Rounds count from 1, places in a list from 0.
#[derive(Clone, Copy, Debug)]
pub enum ClassFault {
    /// One side lacks this round, or the round's class list and parent list differ in length.
    Length { round: u32 },
    /// The number at `at` is 0, or more than one above the greatest before it.
    NotFirstSeen { round: u32, at: u32 },
    /// `a` is the first member of the class of `b`, and their parents are in different classes.
    ParentsApart { round: u32, a: u32, b: u32 },
}

impl fmt::Display for ClassFault {
    ghost use Rattle.std.specs.Prelude.{Some};
    ghost use Rattle.gs_filter.specs.FaultText.{fault_text};

    ghost output = { λ e. Some (fault_text e) };

    fn fmt<W: fmt::Write>(&self, f: &mut fmt::Formatter<W>) -> fmt::Result {
        match self {
            ClassFault::Length { round } => write!(f, "length in round {round}"),
            ClassFault::NotFirstSeen { round, at } => write!(f, "number in round {round} at {at}"),
            ClassFault::ParentsApart { round, a, b } => {
                write!(f, "parents apart in round {round} at {a} and {b}")
            }
        }
    }
}

impl Error for ClassFault {}

/// Why no classes are made: memory ran out, or the lists break a rule.
#[derive(Clone, Copy, Debug)]
pub enum ClassError {
    Memory,
    Fault(ClassFault),
}

impl From<AllocError> for ClassError {
    ghost from_gives = { λ _ error. error ≡ Memory };

    fn from(_: AllocError) -> ClassError {
        ClassError::Memory
    }
}

impl<T: Drop> From<AllocFailed<T>> for ClassError {
    ghost from_gives = { λ _ error. error ≡ Memory };

    fn from(_: AllocFailed<T>) -> ClassError {
        ClassError::Memory
    }
}

impl From<ClassFault> for ClassError {
    ghost from_gives = { λ fault error. error ≡ Fault fault };

    fn from(fault: ClassFault) -> ClassError {
        ClassError::Fault(fault)
    }
}
