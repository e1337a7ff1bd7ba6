//! Why a game has no sequence form within the limits.

ghost use Rattle.std.specs.Prelude.{◌≡◌};
ghost use Rattle.gs_seq.specs.declared.stop.SeqError.TheVariants.{Fault, Memory};

use std::alloc::AllocError;

/// Why a game with its classes has no sequence form within the limits.
#[derive(Clone, Copy, Debug)]
pub enum SeqFault {
    /// The first player with too many sequences, and the number of that player's sequences, with the empty one counted.
    TooManySequences { player: u8, count: u64 },
    /// There are too many cells: `count`.
    TooManyCells { count: u64 },
}

/// Why no sequence form is made: memory ran out, or the game has none within the limits.
#[derive(Clone, Copy, Debug)]
pub enum SeqError {
    Memory,
    Fault(SeqFault),
}

impl From<AllocError> for SeqError {
    ghost from_gives = { λ _ e. e ≡ Memory };

    fn from(_: AllocError) -> SeqError {
        SeqError::Memory
    }
}

impl From<SeqFault> for SeqError {
    ghost from_gives = { λ fault e. e ≡ Fault fault };

    fn from(fault: SeqFault) -> SeqError {
        SeqError::Fault(fault)
    }
}
