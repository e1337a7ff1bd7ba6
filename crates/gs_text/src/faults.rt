//! Writing the texts of the faults of a game file.

ghost use Rattle.std.specs.{Prelude.{◌≡◌, ◌++◌, IfOk, OnOk, codes, string_bytes}, Fmt.{decimal}};
ghost use Rattle.gs_file.specs.{Answers.{fault_of}, Faults.{bad_version}};
ghost use Rattle.gs_game.specs.FaultOf.{refusal_of};
ghost use Rattle.gs_text.specs.FaultText.{fault_text, in_round as text_in_round, place_text as text_of_place, round_tree_text as text_of_round_tree};
ghost use Rattle.gs_text.specs.FaultText.{rule_text as text_of_rule};

use gs_bet::TreeFault;
use gs_file::{FileFault, Place};
use gs_game::GameFault;
use std::alloc::{AllocError, Global};
use std::fmt::Write;

// Adds the round of a key, unless the key stands outside the rounds.
fn push_in_round(text: &mut String, round: u8) -> Result<(), AllocError>
    ensures { OnOk result (string_bytes text.new ≡ string_bytes text.old ++ text_in_round round) }
{
    match round {
        0 => Ok(()),
        round => write!(text, " in round {round}"),
    }
}

// Returns what is wrong with a key, the key, and its round.
fn place_text(alloc: Global, wrong: &str, place: Place) -> Result<String, AllocError>
    ensures { IfOk result (λ text. string_bytes text ≡ text_of_place wrong.now place) }
{
    let key = place.key.text();
    let mut text = format!(in alloc; "{wrong} {key}")?;
    push_in_round(&mut text, place.round)?;
    Ok(text)
}

// Returns the text for a key that may not stand where it stands.
fn unknown_key_text(alloc: Global, round: u8) -> Result<String, AllocError>
    ensures { IfOk result (λ text. string_bytes text ≡ codes "unknown key" ++ text_in_round round) }
{
    let mut text = String::from_str(alloc, "unknown key")?;
    push_in_round(&mut text, round)?;
    Ok(text)
}

// Returns what is wrong, followed by a number.
fn counted_text(alloc: Global, wrong: &str, number: u128) -> Result<String, AllocError>
    ensures { IfOk result (λ text. string_bytes text ≡ wrong.now ++ decimal number) }
{
    format!(in alloc; "{wrong}{number}")
}

// Returns what is wrong with the text of a round's tree.
fn round_tree_text(alloc: Global, round: u8, fault: TreeFault) -> Result<String, AllocError>
    ensures { IfOk result (λ text. string_bytes text ≡ text_of_round_tree round fault) }
{
    format!(in alloc; "tree of round {round}: {fault}")
}

// Returns the text for an even leaf at which the players have put in different amounts, with the letters of the moves to it.
fn uneven_text(alloc: Global, round: u8, path: &[u8]) -> Result<Vec<u8>, AllocError>
    ensures { IfOk result (λ text. text.items ≡ codes "uneven: round " ++ decimal round ++ codes " path " ++ path.now) }
{
    let mut text = format!(in alloc; "uneven: round {round} path ")?.into_bytes();
    text.extend_from_slice(path)?;
    Ok(text)
}

// Returns what is wrong, followed by a number, a word and another number.
fn counts_text(
    alloc: Global,
    wrong: &str,
    first: u32,
    word: &str,
    second: u32,
) -> Result<String, AllocError>
    ensures { IfOk result (λ text. string_bytes text ≡ wrong.now ++ decimal first ++ word.now ++ decimal second) }
{
    format!(in alloc; "{wrong}{first}{word}{second}")
}

// Returns the text of the rule that a game breaks.
fn rule_text(alloc: Global, fault: &GameFault) -> Result<Vec<u8>, AllocError>
    ensures { IfOk result (λ text. text.items ≡ text_of_rule (refusal_of fault.now)) }
{
    let text = match fault {
        GameFault::Rounds { count } => counted_text(alloc, "rounds: ", u128::from(*count)),
        GameFault::NoPrivate => String::from_str(alloc, "no private card in round 1"),
        GameFault::RankingCards { own, all } => {
            let (own, all) = (u32::from(*own), u32::from(*all));
            counts_text(alloc, "cards for ranking: own ", own, " all ", all)
        }
        GameFault::NotEnoughCards { need, have } => {
            counts_text(alloc, "not enough cards: need ", *need, " have ", *have)
        }
        GameFault::NoEven { round } => {
            counted_text(alloc, "no even leaf: round ", u128::from(*round))
        }
        GameFault::Uneven { round, path } => return uneven_text(alloc, *round, path),
        GameFault::PutTooLarge { chips } => {
            counted_text(alloc, "put too large: ", u128::from(*chips))
        }
        GameFault::TooManyLines { count } => counted_text(alloc, "too many lines: ", *count),
        GameFault::TooHeavy { weight } => counted_text(alloc, "too heavy: ", *weight),
        GameFault::TooManySignals { round } => {
            counted_text(alloc, "too many signals: round ", u128::from(*round))
        }
        GameFault::TooManyDeals => String::from_str(alloc, "too many deals"),
    };
    Ok(text?.into_bytes())
}

// Returns the text for a wrong version.
fn version_text(alloc: Global, version: i64) -> Result<String, AllocError>
    ensures { IfOk result (λ text. string_bytes text ≡ fault_text (bad_version version)) }
{
    format!(in alloc; "version {version}")
}

/// Returns why a game file is refused, without a line feed.
pub fn file_fault_text(alloc: Global, fault: &FileFault) -> Result<Vec<u8>, AllocError>
    ensures { IfOk result (λ text. text.items ≡ fault_text (fault_of fault.now)) }
{
    let text = match fault {
        FileFault::NotText => String::from_str(alloc, "not UTF-8"),
        FileFault::NotToml => String::from_str(alloc, "not TOML"),
        FileFault::MissingKey(place) => place_text(alloc, "missing key", *place),
        FileFault::UnknownKey { round } => unknown_key_text(alloc, *round),
        FileFault::WrongType(place) => place_text(alloc, "wrong type", *place),
        FileFault::BadVersion(version) => version_text(alloc, *version),
        FileFault::Range(place) => place_text(alloc, "out of range", *place),
        FileFault::Deck(fault) => String::from_str(alloc, fault.text()),
        FileFault::TreeText { round, fault } => round_tree_text(alloc, *round, *fault),
        FileFault::Game(fault) => return rule_text(alloc, fault),
    };
    Ok(text?.into_bytes())
}
