//! Why a text is not a fraction.

use std::error::Error;
use std::fmt;

/// The first rule that a text breaks.
#[derive(Clone, Copy, Debug, PartialEq, Eq)]
pub enum FracFault {
    /// The text is not an optional `-`, digits, `/` and digits, without leading zeros; or it begins with `-0`.
    NotFraction,
    /// A part is 2^127 or more.
    TooWide,
    /// A number above 1 divides both parts, or the denominator is 0.
    NotReduced,
}

impl fmt::Display for FracFault {
    ghost use Rattle.std.specs.Prelude.{Some};
    ghost use Rattle.gs_frac.specs.FaultText.{fault_text};

    ghost output = { λ e. Some (fault_text e) };

    fn fmt<W: fmt::Write>(&self, f: &mut fmt::Formatter<W>) -> fmt::Result {
        let text = match self {
            FracFault::NotFraction => "not a fraction",
            FracFault::TooWide => "too wide",
            FracFault::NotReduced => "not reduced",
        };
        f.write_str(text)
    }
}

impl Error for FracFault {}
