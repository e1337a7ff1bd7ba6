//! Stand-ins: for each last-round signal one that sees the same deals.

ghost use Rattle.std.specs.{Prelude.{◌≡◌, ◌<◌, EachIndex, IfOk, IsTrue, length, slice_index}, List.{All}};
ghost use Rattle.gs_tree.specs.{Trees.{rules_of}, Walk.{last_count}};
ghost use Rattle.gs_lossless.specs.{Alike.{AreStandIns}, Boards.{IsBoard}, Firsts.{AreAlikeMarks}};

use crate::board::{Board, boards_of};
use crate::firsts::{NONE, first_items};
use crate::kinds::{Kinds, kind_of, list_hands};
use crate::marks::mark_board;
use gs_tree::Signals;
use std::alloc::{AllocError, Global};
use std::collections::HashMap;

/// The signals of a game and the boards of its last round.
/// The list of boards is empty if some kind of card has several copies, or if players are not dealt exactly one private card.
#[derive(Drop)]
pub(crate) struct Boards<'a> {
    pub signals: &'a Signals<'a>,
    list: Vec<Board>,
    by_rank: bool,
    ghost each: { All (IsBoard (rules_of signals.now) by_rank) list.items },
}

/// Returns whether each bonus is 1.
pub(crate) fn are_ones(bonus: &[u8]) -> bool
    ensures { IsTrue result → EachIndex bonus.now (λ category. slice_index bonus.now category ≡ 1) }
{
    bonus.iter().all(|times| *times == 1)
}

impl<'a> Boards<'a> {
    // Returns the boards of the last round.
    fn of(alloc: Global, signals: &'a Signals<'a>) -> Result<Boards<'a>, AllocError>
        ensures { IfOk result (λ boards. boards.signals.now ≡ signals.entry.now) }
    {
        let by_rank = are_ones(&signals.game().game().bonus);
        let list = if signals.is_plain() {
            boards_of(alloc, signals, by_rank)?
        } else {
            Vec::new(alloc)
        };
        Ok(Boards {
            signals,
            list,
            by_rank,
        })
    }

    // Returns for each last-round signal a mark: a signal with the same hand on the first board with the same hands, or no mark.
    fn marks(&self, alloc: Global, keys: &[u32]) -> Result<Vec<u32>, AllocError>
        requires { length keys.now ≡ last_count (rules_of self.now.signals.now) }
        ensures { IfOk result (λ v. AreAlikeMarks (rules_of self.now.signals.now) keys.now v.items) }
    {
        let count = self.signals.count(self.signals.rounds());
        let mut marks = vec![in alloc; NONE; count as usize]?;
        let mut kinds = Kinds {
            list: Vec::new(alloc),
            seen: HashMap::new(alloc),
            row: Vec::new(alloc),
        };
        let mut hands = Vec::new(alloc);
        for (place, board) in self.list.iter().enumerate() {
            list_hands(&mut hands, board, keys)?;
            let kind = kind_of(alloc, &mut kinds, &hands, place)?;
            let like = &kinds.list[kind];
            let other = &self.list[like.board];
            mark_board(&mut marks, &board.seats, &hands, &other.seats, &like.hands);
        }
        Ok(marks)
    }

    // Returns for each last-round signal a stand-in, as the function `stand_ins` does.
    fn stand_ins(&self, alloc: Global, keys: &[u32]) -> Result<Vec<u32>, AllocError>
        requires { length keys.now ≡ last_count (rules_of self.now.signals.now) }
        ensures { IfOk result (λ v. AreStandIns (rules_of self.now.signals.now) keys.now v.items) }
    {
        let marks = self.marks(alloc, keys)?;
        first_items(alloc, marks)
    }
}

/// Returns for each last-round signal a stand-in, at the same or an earlier place. `keys` has a key for each last-round signal.
/// A signal and its stand-in have the same key and the same number of ways to them. Their deals agree in the opponent's key, outcome and weight.
pub fn stand_ins(alloc: Global, signals: &Signals, keys: &[u32]) -> Result<Vec<u32>, AllocError>
    requires { length keys.now ≡ last_count (rules_of signals.now) }
    ensures { IfOk result (λ v. AreStandIns (rules_of signals.now) keys.now v.items) }
{
    let boards = Boards::of(alloc, signals)?;
    boards.stand_ins(alloc, keys)
}
