//! Games given by lines of words.

ghost use Rattle.std.specs.Prelude.{◌<◌, All, OnOk, IfOk};
ghost use Rattle.gs_card.specs.Rankings.{ranking_of};
ghost use Rattle.gs_game.specs.Games.{HasFewCards};
ghost use Rattle.gs_model.specs.Outcome.{IsBonus};

use gs_bet::{TreeError, TreeFault, parse_tree};
use gs_card::{Deck, DeckError, DeckFault, Ranking};
use gs_game::{Game, GameError, Round, ValidGame};
use std::alloc::{AllocError, Global};

/// Kuhn's game of three cards.
pub const KUHN: &str = "JQK, s, high, 1 0 kuhn";

/// Returns the text of the betting tree that a word names, and any other text as it is. `kuhn` is a check or a bet of 1 with no raise, and `check` a check
/// alone. `eight` and `sixteen` are that many moves, and each of them ends the round.
fn tree_of(word: &str) -> &str {
    match word {
        "kuhn" => "1[k:2[k:=,b1:1[f:!,c1:=]],b1:2[f:!,c1:=]]",
        "check" => "1[k:=]",
        "eight" => "1[a:=,b:=,c:=,d:=,e:=,f:=,g:=,h:=]",
        "sixteen" => "1[a:=,b:=,c:=,d:=,e:=,f:=,g:=,h:=,i:=,j:=,k:=,l:=,m:=,n:=,o:=,p:=]",
        _ => word,
    }
}

/// The reason why a line gives no game.
#[derive(Debug, Drop)]
pub enum SampleFault {
    /// A part of the line is missing, or a word is not allowed where it stands.
    Line,
    Deck(DeckFault),
    Tree(TreeFault),
    /// A bonus, the ante or a round's number of cards is out of the range of game files.
    Range,
    /// The rules refuse the game.
    Game,
}

/// Why no game is returned: memory ran out, or the line gives none.
#[derive(Debug, Drop)]
pub enum SampleError {
    Memory,
    Fault(SampleFault),
}

impl From<AllocError> for SampleError {
    fn from(_: AllocError) -> SampleError {
        SampleError::Memory
    }
}

impl From<SampleFault> for SampleError {
    fn from(fault: SampleFault) -> SampleError {
        SampleError::Fault(fault)
    }
}

impl From<DeckError> for SampleError {
    fn from(error: DeckError) -> SampleError {
        match error {
            DeckError::Memory => SampleError::Memory,
            DeckError::Fault(fault) => SampleError::Fault(SampleFault::Deck(fault)),
        }
    }
}

impl From<TreeError> for SampleError {
    fn from(error: TreeError) -> SampleError {
        match error {
            TreeError::Memory => SampleError::Memory,
            TreeError::Fault(fault) => SampleError::Fault(SampleFault::Tree(fault)),
        }
    }
}

impl From<GameError> for SampleError {
    fn from(error: GameError) -> SampleError {
        match error {
            GameError::Memory => SampleError::Memory,
            GameError::Fault(_) => SampleError::Fault(SampleFault::Game),
        }
    }
}

/// Returns the number that a word of a line writes.
fn number_in(word: &str) -> Result<u8, SampleFault> {
    word.parse::<u8>().map_err(|_| SampleFault::Line)
}

/// Returns the ranking that a word names.
fn ranking_in(word: &str) -> Result<Ranking, SampleFault> {
    match word {
        "high" => Ok(Ranking::High),
        "pair" => Ok(Ranking::Pair),
        "three" => Ok(Ranking::Three),
        _ => Err(SampleFault::Line),
    }
}

/// Returns the bonus of each category of a ranking from two words: the first for the lowest category, the second for all above it.
fn bonuses(alloc: Global, ranking: Ranking, words: &str) -> Result<Vec<u8>, SampleError>
    ensures { IfOk result (λ v. IsBonus (ranking_of ranking) v.items) }
{
    let (first, second) = words.split_once(' ').ok_or(SampleFault::Line)?;
    let (lowest, above) = (number_in(first)?, number_in(second)?);
    if lowest < 1 || 9 < lowest || above < 1 || 9 < above {
        return Err(SampleError::Fault(SampleFault::Range));
    }
    let mut all = vec![in alloc; above; ranking.categories() as usize]?;
    all[0] = lowest;
    Ok(all)
}

/// Returns the round of three words: the number of private cards of each player, the number of public cards, and the betting tree.
fn round_of(alloc: Global, words: &str) -> Result<Round, SampleError>
    ensures { IfOk result HasFewCards }
{
    let (cards, tree) = words.rsplit_once(' ').ok_or(SampleFault::Line)?;
    let (first, second) = cards.split_once(' ').ok_or(SampleFault::Line)?;
    let (private, public) = (number_in(first)?, number_in(second)?);
    let tree = parse_tree(alloc, tree_of(tree))?;
    if private > 2 || public > 3 {
        return Err(SampleError::Fault(SampleFault::Range));
    }
    Ok(Round {
        private,
        public,
        tree,
    })
}

/// Adds a round.
fn push_round(rounds: &mut Vec<Round>, round: Round) -> Result<(), AllocError>
    requires few { HasFewCards round }
    requires all { All HasFewCards rounds.old.items }
    ensures { OnOk result (All HasFewCards rounds.new.items) }
{
    rounds.push(round)?;
    Ok(())
}

/// Returns the rounds of these parts of a line.
fn rounds_of(alloc: Global, parts: &[&str]) -> Result<Vec<Round>, SampleError>
    ensures { IfOk result (λ v. All HasFewCards v.items) }
{
    let mut rounds = Vec::new(alloc);
    for part in parts {
        let round = round_of(alloc, part)?;
        push_round(&mut rounds, round)?;
    }
    Ok(rounds)
}

/// Returns the game of a line, checked, or its first fault.
///
/// The parts of a line stand with a comma and a space between two: the ranks, the suits, the ranking, and each round. After the suits may stand the
/// copies of each card, if they are not all 1. After the ranking may stand the bonus of the lowest category, the bonus of those above it and the ante, if
/// they are not all 1.
pub fn game_of(alloc: Global, line: &str) -> Result<ValidGame, SampleError> {
    let parts: Vec<&str> = line.split(", ").collect(alloc)?;
    if parts.len() < 3 {
        return Err(SampleError::Fault(SampleFault::Line));
    }
    let (suits, copies) = parts[1].split_once(' ').unwrap_or((parts[1], ""));
    let deck = Deck::new(alloc, parts[0], suits, copies)?;
    let (ranking, stakes) = parts[2].split_once(' ').unwrap_or((parts[2], "1 1 1"));
    let (bonus, ante) = stakes.rsplit_once(' ').ok_or(SampleFault::Line)?;
    let ranking = ranking_in(ranking)?;
    let ante = ante.parse::<u16>().map_err(|_| SampleFault::Line)?;
    if ante < 1 || 4096 < ante {
        return Err(SampleError::Fault(SampleFault::Range));
    }
    let game = Game {
        deck,
        ranking,
        bonus: bonuses(alloc, ranking, bonus)?,
        ante,
        rounds: rounds_of(alloc, &parts[3..])?,
    };
    Ok(game.check(alloc)?)
}
