//! Reads the text of a betting tree.

ghost use Rattle.std.specs.Prelude.{◌≡◌, ◌≤◌, ◌<◌, ◌-◌, IfOk, IfErr, IsTrue, []};
ghost use Rattle.gs_bet.specs.{Grammar.{is_tree, tree_text}, Faults.{IsErrorOf, ReadsAs, mistake_fault}, MoveLists.{has_letter, push_move}};
ghost use Rattle.gs_bet.specs.{TreeView.{plain, plain_moves}, declared.shape.Move.{out-Move}};
ghost use Rattle.gs_bet.specs.Reading.{Gives, player_digit, letter_at, chips_at, expect_at, move_at, more_at, moves_at, inner_at, act_with, act_at};
ghost use Rattle.gs_bet.specs.Reading.{outer_at, all_of};
ghost use Rattle.gs_model.specs.Betting.{Bet, none};

use crate::fault::{Mistake, ReadError, TreeError, TreeFault};
use crate::shape::{Act, BetTree, Move, Tree};
use std::alloc::Global;

#[tactic(auto, unfolding(crate::specs::Reading::player_digit))]
fn player_of(left: u8, bytes: &[u8]) -> Result<(u8, &[u8]), ReadError>
    ensures read { Gives (λ x. (x.0, x.1.now)) result (player_digit left bytes.now) }
    ensures room { IfOk result (λ _. 0 < left) }
{
    match bytes {
        [b'1', rest @ ..] if left > 0 => Ok((1, rest)),
        [b'2', rest @ ..] if left > 0 => Ok((2, rest)),
        [b'1' | b'2', ..] => Err(ReadError::Fault(Mistake::TooDeep, bytes.len())),
        _ => Err(ReadError::Fault(Mistake::Syntax, bytes.len())),
    }
}

#[tactic(auto, unfolding(crate::specs::Reading::expect_at))]
fn expect(byte: u8, bytes: &[u8]) -> Result<&[u8], ReadError>
    ensures { Gives (λ x. (tt, x.now)) result (expect_at byte bytes.now) }
{
    match bytes {
        [first, rest @ ..] if *first == byte => Ok(rest),
        _ => Err(ReadError::Fault(Mistake::Syntax, bytes.len())),
    }
}

fn has(moves: &[Move], letter: u8) -> bool
    ensures { result ≡ has_letter (plain_moves moves.now) letter }
{
    for next in moves {
        if next.letter == letter {
            return true;
        }
    }
    false
}

#[tactic(auto, unfolding(crate::specs::Reading::letter_at))]
fn letter_of<'t>(moves: &[Move], bytes: &'t [u8]) -> Result<(u8, &'t [u8]), ReadError>
    ensures { Gives (λ x. (x.0, x.1.now)) result (letter_at (plain_moves moves.now) bytes.now) }
{
    match bytes {
        [letter @ b'a'..=b'z', rest @ ..] => {
            if has(moves, *letter) {
                return Err(ReadError::Fault(Mistake::RepeatedLetter, bytes.len()));
            }
            Ok((*letter, rest))
        }
        _ => Err(ReadError::Fault(Mistake::Syntax, bytes.len())),
    }
}

#[tactic(auto, unfolding(crate::specs::Reading::chips_at))]
fn chips_of(bytes: &[u8]) -> (u16, &[u8])
    ensures value { (result.0, result.1.now) ≡ chips_at 0 bytes.now }
    ensures bound { result.0 ≤ 4096 }
{
    let mut chips: u16 = 0;
    let mut rest = bytes;
    while let [digit @ b'0'..=b'9', others @ ..] = rest {
        let more = chips * 10 + u16::from(*digit - b'0');
        if more == 0 || more > 4096 {
            break;
        }
        chips = more;
        rest = others;
    }
    (chips, rest)
}

#[cycle(reader)]
#[tactic(auto, unfolding(crate::specs::Reading::move_at))]
fn move_of<'t>(
    alloc: Global,
    left: u8,
    moves: &[Move],
    bytes: &'t [u8],
) -> Result<(Move, &'t [u8]), ReadError>
    ensures { Gives (λ x. (push_move (plain_moves moves.now) (out-Move x.0).letter (out-Move x.0).chips (plain (out-Move x.0).next), x.1.now)) result
        (move_at (inner_at (act_at left)) (plain_moves moves.now) bytes.now) }
{
    let (letter, rest) = letter_of(moves, bytes)?;
    let (chips, rest) = chips_of(rest);
    let rest = expect(b':', rest)?;
    let (next, rest) = inner_of(alloc, left, rest)?;
    Ok((
        Move {
            letter,
            chips,
            next,
        },
        rest,
    ))
}

#[tactic(auto, unfolding(crate::specs::Reading::more_at))]
fn more_of(moves: usize, bytes: &[u8]) -> Result<(bool, &[u8]), ReadError>
    ensures { Gives (λ x. (x.0, x.1.now)) result (more_at moves bytes.now) }
{
    match bytes {
        [b']', rest @ ..] => Ok((false, rest)),
        [b',', rest @ ..] if moves < 26 => Ok((true, rest)),
        _ => Err(ReadError::Fault(Mistake::Syntax, bytes.len())),
    }
}

#[cycle(reader)]
fn moves_of(alloc: Global, left: u8, bytes: &[u8]) -> Result<(Vec<Move>, &[u8]), ReadError>
    ensures { Gives (λ x. (plain_moves x.0.items, x.1.now)) result (moves_at (inner_at (act_at left)) 26 none bytes.now) }
{
    let mut moves = Vec::new(alloc);
    let mut rest = bytes;
    loop {
        let (next, behind) = move_of(alloc, left, &moves, rest)?;
        moves.push(next)?;
        let (more, others) = more_of(moves.len(), behind)?;
        if !more {
            return Ok((moves, others));
        }
        rest = others;
    }
}

#[cycle(reader)]
#[tactic(auto, unfolding(crate::specs::Reading::inner_at))]
fn inner_of(alloc: Global, left: u8, bytes: &[u8]) -> Result<(Tree, &[u8]), ReadError>
    ensures { Gives (λ x. (plain x.0, x.1.now)) result (inner_at (act_at left) bytes.now) }
{
    match bytes {
        [b'=', rest @ ..] => Ok((Tree::Even, rest)),
        [b'!', rest @ ..] => Ok((Tree::Fold, rest)),
        _ => act_of(alloc, left, bytes),
    }
}

#[cycle(reader)]
#[tactic(auto, using(crate::proofs::ReadingLaws::act_is), unfolding(crate::specs::Reading::act_with))]
fn act_of(alloc: Global, left: u8, bytes: &[u8]) -> Result<(Tree, &[u8]), ReadError>
    ensures { Gives (λ x. (plain x.0, x.1.now)) result (act_at left bytes.now) }
{
    let (player, rest) = player_of(left, bytes)?;
    let rest = expect(b'[', rest)?;
    let (moves, rest) = moves_of(alloc, left - 1, rest)?;
    Ok((Tree::Act(Act { player, moves }), rest))
}

#[tactic(auto, unfolding(crate::specs::Reading::outer_at))]
fn outer_of(alloc: Global, bytes: &[u8]) -> Result<(Tree, &[u8]), ReadError>
    ensures { Gives (λ x. (plain x.0, x.1.now)) result (outer_at bytes.now) }
{
    match bytes {
        [b'=', rest @ ..] => Ok((Tree::Even, rest)),
        _ => act_of(alloc, 16, bytes),
    }
}

/// Returns the fault of a mistake and its place.
fn fault_at(mistake: Mistake, at: usize) -> TreeFault
    ensures { result ≡ mistake_fault mistake at }
{
    let at = at as u64;
    match mistake {
        Mistake::RepeatedLetter => TreeFault::RepeatedLetter { at },
        Mistake::TooDeep => TreeFault::TooDeep { at },
        Mistake::Syntax => TreeFault::Syntax { at },
    }
}

#[tactic(auto, unfolding(crate::specs::Reading::all_of))]
fn whole_of(alloc: Global, bytes: &[u8]) -> Result<Tree, ReadError>
    ensures { Gives (λ x. (plain x, [])) result (all_of bytes.now) }
{
    let (tree, rest) = outer_of(alloc, bytes)?;
    if !rest.is_empty() {
        return Err(ReadError::Fault(Mistake::Syntax, rest.len()));
    }
    Ok(tree)
}

/// Reads the betting tree with this text. Fails with what follows the longest prefix that begins a tree's text, or if memory runs out.
pub fn parse_tree(alloc: Global, text: &str) -> Result<BetTree, TreeError>
    // What is read has this text.
    ensures found { IfOk result (λ t. text.now ≡ tree_text (plain t.tree)) }
    // A tree's text is read, unless memory runs out.
    ensures only { (t : Bet) → IsTrue (is_tree t) → text.now ≡ tree_text t → ReadsAs result t }
    // A fault names what follows the longest prefix that begins a tree's text.
    ensures fault { IfErr result (IsErrorOf text.now) }
{
    let bytes = text.as_bytes();
    match whole_of(alloc, bytes) {
        Ok(tree) => Ok(BetTree { tree }),
        Err(ReadError::Memory) => Err(TreeError::Memory),
        Err(ReadError::Fault(mistake, left)) => Err(TreeError::Fault(fault_at(
            mistake,
            bytes.len() - left,
        ))),
    }
}
