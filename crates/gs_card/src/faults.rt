//! Why three texts make no deck.

ghost use Rattle.std.specs.Prelude.{◌≡◌};
ghost use Rattle.gs_card.specs.declared.faults.DeckError.TheVariants.{Fault, Memory};
ghost use Rattle.gs_card.specs.DeckFaults.{fault_text};

use std::alloc::AllocError;

/// The most kinds of cards that a deck has.
pub const MOST_KINDS: usize = 52;

/// Why three texts make no deck. The first reason that applies is returned.
#[derive(Clone, Copy, Debug)]
pub enum DeckFault {
    /// There are no ranks, or no suits.
    NoCards,
    /// A character of the ranks or suits is no ASCII letter or digit.
    BadLetter,
    /// A letter occurs twice in the ranks, or twice in the suits.
    RepeatedLetter,
    /// There are more than `MOST_KINDS` kinds.
    TooManyKinds,
    /// The copies are neither empty nor exactly one digit for each kind.
    BadCopies,
}

impl DeckFault {
    /// Returns the text of the fault.
    pub fn text(self) -> &'static str
        ensures { result.now ≡ fault_text self }
    {
        match self {
            DeckFault::NoCards => "deck: no cards",
            DeckFault::BadLetter => "deck: bad letter",
            DeckFault::RepeatedLetter => "deck: repeated letter",
            DeckFault::TooManyKinds => "deck: too many kinds",
            DeckFault::BadCopies => "deck: bad copies",
        }
    }
}

/// Why no deck is made: memory ran out, or the texts make none.
#[derive(Clone, Copy)]
pub enum DeckError {
    Memory,
    Fault(DeckFault),
}

impl From<AllocError> for DeckError {
    ghost from_gives = { λ _ error. error ≡ Memory };

    fn from(_: AllocError) -> DeckError {
        DeckError::Memory
    }
}

impl From<DeckFault> for DeckError {
    ghost from_gives = { λ fault error. error ≡ Fault fault };

    fn from(fault: DeckFault) -> DeckError {
        DeckError::Fault(fault)
    }
}
