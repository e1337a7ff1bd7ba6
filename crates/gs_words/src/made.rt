//! The text of a made game.

ghost use Rattle.std.specs.Prelude.{◌≡◌, ◌≤◌, ◌++◌, IfOk, OnOk, string_bytes, codes, take};
ghost use Rattle.gs_words.specs.Made.{head_text, last, made_game as game_text, round_block, three_numbers};

use crate::kind::{Kind, Round};
use std::alloc::{AllocError, Global};
use std::fmt::Write;

const RANKS: &str = "23456789TJQKA";

const SUITS: &str = "shdc";

// Returns the `count` highest ranks.
fn last_ranks(count: u8) -> &'static str
    requires { count ≤ 13 }
    ensures { result.now ≡ last count (codes "23456789TJQKA") }
{
    &RANKS[RANKS.len() - count as usize..]
}

// Returns the first `count` suits.
fn first_suits(count: u8) -> &'static str
    requires { count ≤ 4 }
    ensures { result.now ≡ take count (codes "shdc") }
{
    &SUITS[..count as usize]
}

// Returns the lines before the rounds.
#[tactic(auto, unfolding(crate::specs::Made::head_text))]
fn head(
    alloc: Global,
    ranks: &str,
    suits: &str,
    ranking: &str,
    ante: u8,
) -> Result<String, AllocError>
    ensures { IfOk result (λ text. string_bytes text ≡ head_text ranks.now suits.now ranking.now ante) }
{
    format!(in alloc;
        "version = 1\nranks = \"{ranks}\"\nsuits = \"{suits}\"\nranking = \"{ranking}\"\nante = {ante}\n"
    )
}

// Adds the lines of a round to the text.
#[tactic(auto, unfolding(crate::specs::Made::round_block))]
fn push_round(text: &mut String, round: Round, cap: u8) -> Result<(), AllocError>
    ensures { OnOk result (string_bytes text.new ≡ string_bytes text.old ++ round_block cap (three_numbers round)) }
{
    let private = round.private;
    let public = round.public;
    let bet = round.bet;
    write!(
        text,
        "\n[[round]]\nprivate = {private}\npublic = {public}\nbet = {bet}\ncap = {cap}\n"
    )
}

/// Returns the game file of a well-known game with the highest `ranks` of the thirteen and the
/// first `suits` of spades, hearts, diamonds and clubs. Each round has at most `cap` bets and
/// raises.
///
/// The file may still be refused, for example if the game has fewer cards than it deals.
pub fn made_game(
    alloc: Global,
    kind: Kind,
    ranks: u8,
    suits: u8,
    cap: u8,
) -> Result<String, AllocError>
    requires ranks { (1 ≤ ranks) × (ranks ≤ 13) }
    requires suits { (1 ≤ suits) × (suits ≤ 4) }
    requires cap { cap ≤ 8 }
    ensures { IfOk result (λ text. string_bytes text ≡ game_text kind ranks suits cap) }
{
    let ranks = last_ranks(ranks);
    let suits = first_suits(suits);
    let mut text = head(alloc, ranks, suits, kind.ranking(), kind.ante())?;
    for round in kind.rounds() {
        push_round(&mut text, *round, cap)?;
    }
    Ok(text)
}
