//! Why a command refuses its input, or stops for another reason.

ghost use Rattle.std.specs.Prelude.{◌≡◌};
ghost use Rattle.gs_reply.specs.declared.refusals.Stop.TheVariants.{Memory};

use gs_file::FileFault;
use gs_frac::Fraction;
use gs_lift::QueryFault;
use gs_seq::{SeqError, SeqFault};
use gs_strategy::StoreFault;
use std::alloc::{AllocError, AllocFailed};
use std::fmt;

/// What there is too much of, and how much.
#[derive(Clone, Copy)]
pub enum Limit {
    /// Sequences of a player.
    Sequences { player: u8, count: u64 },
    /// Pairs of classes over all ends.
    Cells { count: u64 },
    /// Numbers of a linear program's table.
    TableNumbers { count: u64 },
    /// Pairs of raw signals over all ends.
    RawCells { count: u64 },
}

/// What of a solution is too large.
#[derive(Clone, Copy)]
pub enum Overflow {
    /// A number of the path.
    AtStep {
        step: u32,
        row: u32,
        column: u32,
        number: i128,
    },
    /// A player's total.
    AtTotal {
        player: u8,
        multiple: u128,
    },
}

/// Which of a command's strategy files: its only one, or the first or the second of two.
#[derive(Clone, Copy)]
pub enum Which {
    Only,
    First,
    Second,
}

/// A stated number, by its name, that differs from the computed one.
#[derive(Clone, Copy)]
pub struct WrongNumber {
    pub name: &'static str,
    pub stated: Fraction,
    pub found: Fraction,
}

/// Why an input is refused.
#[derive(Drop)]
pub enum Refusal {
    /// It is not a valid game file.
    BadGame(FileFault),
    /// Its classes have an unlike pair in a round, given by the texts of the two signals.
    Unlike {
        round: u8,
        first: String,
        second: String,
    },
    /// A number of its solution is too large.
    Overflows(Overflow),
    /// The path to its solution is too long.
    ManyPivots,
    /// Its game is too large for what is asked.
    TooLarge(Limit),
    /// It is not a valid strategy file.
    BadStrategy {
        which: Which,
        fault: StoreFault,
    },
    /// A stated number differs from the computed one.
    WrongNumber(WrongNumber),
    /// The query names no information set of the player.
    BadQuery(QueryFault),
    /// Its two strategies are for different games.
    OtherGame,
    /// Its certificate is malformed or invalid, given by the text of the fault.
    BadCertificate(Vec<u8>),
}

/// Why a command prints nothing: it refuses its input, or memory ran out.
#[derive(Drop)]
pub enum Stop {
    Refused(Refusal),
    Memory,
}

impl From<AllocError> for Stop {
    ghost from_gives = { λ _ e. e ≡ Memory };

    fn from(_: AllocError) -> Stop {
        Stop::Memory
    }
}

impl<T: Drop> From<AllocFailed<T>> for Stop {
    ghost from_gives = { λ _ e. e ≡ Memory };

    fn from(_: AllocFailed<T>) -> Stop {
        Stop::Memory
    }
}

impl From<SeqError> for Stop {
    ghost use Rattle.gs_reply.specs.Replies.{of_seq_error};

    ghost from_gives = { λ why e. e ≡ of_seq_error why };

    fn from(error: SeqError) -> Stop {
        let limit = match error {
            SeqError::Memory => return Stop::Memory,
            SeqError::Fault(SeqFault::TooManySequences { player, count }) => {
                Limit::Sequences { player, count }
            }
            SeqError::Fault(SeqFault::TooManyCells { count }) => Limit::Cells { count },
        };
        Stop::Refused(Refusal::TooLarge(limit))
    }
}

impl fmt::Display for Limit {
    ghost use Rattle.std.specs.Prelude.{Some};
    ghost use Rattle.gs_reply.specs.Refusals.{limit_text};

    ghost output = { λ limit. Some (limit_text limit) };

    fn fmt<W: fmt::Write>(&self, f: &mut fmt::Formatter<W>) -> fmt::Result {
        let (what, count) = match self {
            Limit::Sequences { player, count } => {
                return write!(f, "sequences of player {player}: {count}");
            }
            Limit::Cells { count } => ("cells", count),
            Limit::TableNumbers { count } => ("table numbers", count),
            Limit::RawCells { count } => ("raw cells", count),
        };
        write!(f, "{what}: {count}")
    }
}

impl fmt::Display for Overflow {
    ghost use Rattle.std.specs.Prelude.{Some};
    ghost use Rattle.gs_reply.specs.Refusals.{overflow_text};

    ghost output = { λ at. Some (overflow_text at) };

    fn fmt<W: fmt::Write>(&self, f: &mut fmt::Formatter<W>) -> fmt::Result {
        match self {
            Overflow::AtStep {
                step,
                row,
                column,
                number,
            } => write!(f, "step {step} row {row} column {column} number {number}"),
            Overflow::AtTotal { player, multiple } => write!(f, "player {player} total {multiple}"),
        }
    }
}
