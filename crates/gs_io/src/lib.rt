//! Sources and sinks of bytes, each with a count of its faults.
//!
//! A call may return a fault only if the count of its source or sink has risen. So a caller can
//! tell a fault outside the program from a body that always returns an error.
#![tactic(auto)]

mod memory;
mod standard;
mod whole;

ghost use Rattle.std.specs.{Prelude.{◌≡◌, ◌<◌, ◌≤◌, ℕ, List, Option, length, take, IfOk}, Io.{ReadsAtMost}};
ghost use Rattle.std.specs.Io.KnownBytes.{ReadConsumes, WriteAppends};
ghost use Rattle.gs_io.specs.Causes.{HasCause, Rose, raised};

pub use memory::{MemSink, MemSource, SureSource};
pub use standard::{StdSink, StdSource};
pub use whole::{read_all, write_all};

/// A read or a write that failed.
#[derive(Clone, Copy)]
pub struct Failed;

// Adds one to the count and returns the failure.
fn count_fault(faults: &mut u64) -> Failed
    ensures raised { faults.new ≡ raised faults.old }
    ensures cause { Rose faults.old faults.new }
{
    *faults = faults.saturating_add(1);
    Failed
}

/// What is wrong with a source.
#[derive(Clone, Copy)]
pub enum InputFault {
    /// A read failed.
    Failed,
    /// There are more bytes than the limit.
    TooLong,
}

/// Why no input is read: memory ran out, or the source has a fault.
#[derive(Clone, Copy)]
pub enum InputError {
    Memory,
    Fault(InputFault),
}

/// The reason why a write of all bytes stopped.
#[derive(Clone, Copy, Debug, PartialEq, Eq)]
pub enum WriteStop {
    /// A write failed after the first `written` bytes.
    Fault { written: usize },
}

/// A source of bytes, read one piece at a time.
pub trait Source {
    /// The bytes still to come, if the source tells them.
    ghost left: { Self → Option (List ℕ) };

    /// The number of failures so far, at most 2^64 - 1.
    ghost faults: { Self → ℕ };

    /// Puts the next bytes at the front of `into`, and returns how many. It returns 0 only at the end.
    /// After a failure the bytes are still to come.
    fn take(&mut self, into: &mut [u8]) -> Result<usize, Failed>
        requires { 0 < length into.old }
        ensures bound { ReadsAtMost result into.new }
        ensures bytes { ReadConsumes (left self.old) (left self.new) result into.new }
        ensures cause { HasCause (faults self.old) (faults self.new) result };
}

/// A sink of bytes, written one piece at a time.
pub trait Sink {
    /// The bytes taken so far, if the sink tells them.
    ghost given: { Self → Option (List ℕ) };

    /// The number of failures so far, at most 2^64 - 1.
    ghost faults: { Self → ℕ };

    /// Takes at least one of the bytes, from the first on, and returns how many.
    /// After a failure none of them was taken.
    fn give(&mut self, bytes: &[u8]) -> Result<usize, Failed>
        requires { 0 < length bytes.now }
        ensures count { IfOk result (λ n. (1 ≤ n) × (n ≤ length bytes.now)) }
        ensures bytes { WriteAppends (given self.old) (given self.new) result bytes.now }
        ensures cause { HasCause (faults self.old) (faults self.new) result };
}
