//! Faults of a game file.

ghost use Rattle.std.specs.Prelude.{◌≡◌};
ghost use Rattle.gs_file.specs.declared.fault.FileError.TheVariants.{Fault, Memory};

use gs_bet::TreeFault;
use gs_card::DeckFault;
use gs_game::GameFault;
use std::alloc::AllocError;

/// A key of the game file.
#[derive(Clone, Copy)]
pub enum Key {
    Version,
    Ranks,
    Suits,
    Copies,
    Ranking,
    Bonus,
    Ante,
    Round,
    Private,
    Public,
    Tree,
    Bet,
    Cap,
}

impl Key {
    ghost use Rattle.gs_file.specs.Keys.{key_text};

    /// Returns the key as the file writes it.
    pub fn text(self) -> &'static str
        ensures { result.now ≡ key_text self }
    {
        match self {
            Key::Version => "version",
            Key::Ranks => "ranks",
            Key::Suits => "suits",
            Key::Copies => "copies",
            Key::Ranking => "ranking",
            Key::Bonus => "bonus",
            Key::Ante => "ante",
            Key::Round => "round",
            Key::Private => "private",
            Key::Public => "public",
            Key::Tree => "tree",
            Key::Bet => "bet",
            Key::Cap => "cap",
        }
    }
}

/// A key, and the round that it stands in, or 0 outside the rounds.
#[derive(Clone, Copy)]
pub struct Place {
    pub key: Key,
    pub round: u8,
}

/// The first fault of a game file. The checks are made in the order of the file's description.
#[derive(Drop)]
pub enum FileFault {
    /// The bytes are not UTF-8.
    NotText,
    /// The text is not TOML.
    NotToml,
    /// A required key is missing.
    MissingKey(Place),
    /// A key is not allowed where it stands: in this round, or at the top if the round is 0.
    UnknownKey { round: u8 },
    /// A value has the wrong type for its key.
    WrongType(Place),
    /// The version is neither 1 nor 2.
    BadVersion(i64),
    /// A value has the right type and is out of its range.
    Range(Place),
    /// The ranks, suits and copies make no deck.
    Deck(DeckFault),
    /// The text of a round's tree is not the text of a tree.
    TreeText { round: u8, fault: TreeFault },
    /// The game breaks a rule.
    Game(GameFault),
}

/// Why no game is read: memory ran out, or the file has a fault.
#[derive(Drop)]
pub enum FileError {
    Memory,
    Fault(FileFault),
}

impl<E: Into<AllocError> + Drop> From<E> for FileError {
    ghost from_gives = { λ _ error. error ≡ Memory };

    fn from(_: E) -> FileError {
        FileError::Memory
    }
}

impl From<FileFault> for FileError {
    ghost from_gives = { λ fault error. error ≡ Fault fault };

    fn from(fault: FileFault) -> FileError {
        FileError::Fault(fault)
    }
}
