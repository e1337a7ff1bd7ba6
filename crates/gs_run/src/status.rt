//! The status of a run.

use gs_reply::Refusal;

/// The status with which a run of the program ends.
#[derive(Clone, Copy, Debug, PartialEq, Eq)]
pub enum Status {
    /// The whole text was written to stdout.
    Ok,
    /// The command line is invalid.
    Usage,
    /// A read failed.
    ReadFault,
    /// A write failed.
    WriteFault,
    /// Memory ran out.
    Memory,
    /// The input is longer than 16,777,216 bytes.
    TooLong,
    /// The input is not a valid game file.
    BadGame,
    /// The classes are not lossless.
    Unlike,
    /// A number of the solution, or of its path, is too large.
    Overflow,
    /// The path to the solution is too long.
    PivotLimit,
    /// The game is too large for what is asked.
    TooLarge,
    /// The input is not a valid strategy file.
    BadStrategy,
    /// A number of the strategy differs from the computed one.
    WrongNumbers,
    /// The query names no information set of the player.
    BadQuery,
    /// The two strategies are for different games.
    OtherGame,
    /// The certificate is malformed or invalid.
    BadCertificate,
}

impl Status {
    ghost use Rattle.std.specs.Prelude.{◌≡◌};
    ghost use Rattle.gs_reply.specs.{Refusals.{Refusal as Why}, Replies.{IsRefusal}};
    ghost use Rattle.gs_run.specs.Statuses.{code_of, status_of};

    /// Returns the status of a run that refuses its input.
    pub fn of(refusal: &Refusal) -> Status
        ensures { (why : Why) → IsRefusal refusal.now why → result ≡ status_of why }
    {
        match refusal {
            Refusal::BadGame(_) => Status::BadGame,
            Refusal::Unlike { .. } => Status::Unlike,
            Refusal::Overflows(_) => Status::Overflow,
            Refusal::ManyPivots => Status::PivotLimit,
            Refusal::TooLarge(_) => Status::TooLarge,
            Refusal::BadStrategy { .. } => Status::BadStrategy,
            Refusal::WrongNumber(_) => Status::WrongNumbers,
            Refusal::BadQuery(_) => Status::BadQuery,
            Refusal::OtherGame => Status::OtherGame,
            Refusal::BadCertificate(_) => Status::BadCertificate,
        }
    }

    /// Returns the exit status of the process.
    pub fn code(self) -> u8
        ensures { result ≡ code_of self }
    {
        match self {
            Status::Ok => 0,
            Status::Usage => 2,
            Status::ReadFault => 3,
            Status::WriteFault => 4,
            Status::Memory => 5,
            Status::TooLong => 6,
            Status::BadGame => 7,
            Status::Unlike => 8,
            Status::Overflow => 9,
            Status::PivotLimit => 10,
            Status::TooLarge => 11,
            Status::BadStrategy => 12,
            Status::WrongNumbers => 13,
            Status::BadQuery => 14,
            Status::OtherGame => 16,
            Status::BadCertificate => 17,
        }
    }
}
