//! A game in sequence form over lossless classes.

ghost use Rattle.std.specs.Prelude.{◌≡◌, ◌<◌, ◌≤◌, ◌^◌, IfOk, None, Some, length};
ghost use Rattle.gs_boards.specs.declared.board_order.BoardOrder.{BoardOrder as Along};
ghost use Rattle.gs_model.specs.Frame.{last_round};
ghost use Rattle.gs_seq.specs.{Games.{frame_in}, Rows.{AreRows, AreWholes, IsSingleIn}, Singles.{HasSumsOf}, Slots.{AreOffsets, slot_count as slots_in}};
ghost use Rattle.gs_seq.specs.Stops.{HasSequencesWithin};
ghost use Rattle.gs_tree.specs.Trees.{rules_of};

use crate::fault::PlanFault;
use crate::flows::plan_fault;
use crate::limits::Limits;
use crate::numbers::{PlanAtEnd, end_source};
use crate::pair::Pair;
use crate::pairs::{Pairs, first_after};
use crate::plan::Plan;
use crate::rows::{cells, rows_of, wholes_of};
use crate::single::are_made;
use crate::slots::{few_slots, offsets_of};
use crate::stop::{SeqError, SeqFault};
use gs_boards::BoardOrder;
use gs_filter::Classes;
use gs_lossless::Lossless;
use std::alloc::{AllocError, Global};

/// The usual limits: the most sequences of a player and the most cells of a game that is solved or played.
const USUAL: Limits = Limits {
    sequences: 262_144,
    cells: 4_194_304,
};

/// A game with lossless classes in sequence form: the slots of both players' plans, and the sums over deals by pairs of classes.
/// A point with a class of its round is an information set after abstraction.
#[derive(Drop)]
pub struct Abstract<'a> {
    pub lossless: &'a Lossless<'a>,
    // for each point the slot of its first class and first move
    offsets: Vec<u32>,
    // how many slots players 1 and 2 have
    one: u32,
    two: u32,
    // for each round and class of player 1 its pairs; the last round is left out if its pairs are made from deals
    pub(crate) rows: Vec<Vec<Vec<Pair>>>,
    // for each of these rows all its pairs as one
    pub(crate) wholes: Vec<Vec<Pair>>,
    // the signals of the last round along their boards, if the pairs of its classes are made from deals
    order: Option<BoardOrder<'a>>,
    ghost few: { HasSequencesWithin (2 ^ 30) (frame_in lossless.now.signals.now.game.now) lossless.now.classes.now.lists },
    ghost placed: { AreOffsets (frame_in lossless.now.signals.now.game.now) lossless.now.classes.now.lists offsets.items },
    ghost ones: { one ≡ slots_in (frame_in lossless.now.signals.now.game.now) lossless.now.classes.now.lists 1 },
    ghost twos: { two ≡ slots_in (frame_in lossless.now.signals.now.game.now) lossless.now.classes.now.lists 2 },
    ghost paired: { AreRows (frame_in lossless.now.signals.now.game.now) lossless.now.classes.now.lists rows.items },
    ghost wholed: { AreWholes rows.items wholes.items },
    ghost ordered: { (b : Along) → order ≡ Some b → HasSumsOf (rules_of b.signals.now) (rules_of lossless.now.signals.now) },
    ghost single: { (b : Along) → order ≡ Some b → IsSingleIn lossless.now.classes.now.lists (last_round (frame_in lossless.now.signals.now.game.now)) },
    ghost listed: { order ≡ None → length rows.items ≡ last_round (frame_in lossless.now.signals.now.game.now) },
}

/// Returns the signals of the last round along their boards, if the pairs of that round's classes are made from deals.
fn order_of<'a>(
    alloc: Global,
    lossless: &'a Lossless<'a>,
) -> Result<Option<BoardOrder<'a>>, AllocError>
    ensures sums { IfOk result (λ o. (b : Along) → o ≡ Some b → HasSumsOf (rules_of b.signals.now) (rules_of lossless.entry.now.signals.now)) }
    ensures single { IfOk result (λ o. (b : Along) → o ≡ Some b
        → IsSingleIn lossless.entry.now.classes.now.lists (last_round (frame_in lossless.entry.now.signals.now.game.now))) }
{
    let signals = lossless.signals();
    if are_made(signals, lossless.classes()) {
        BoardOrder::of(alloc, signals)
    } else {
        Ok(None)
    }
}

impl<'a> Abstract<'a> {
    ghost use Rattle.std.specs.Prelude.{◌+◌, IfOk, IfErr, IfSome, MatchOption};
    ghost use Rattle.gs_model.specs.{Classes.{IsClass}, Frame.{end_count, last_round, move_count, player_at, point_count, round_of}};
    ghost use Rattle.gs_model.specs.{Pairs.{class_number}, Positions.{at_end, at_point}};
    ghost use Rattle.gs_seq.specs.{Abstracts.{abstract_frame, lists_of}, AtEnds.{IsOfForm}, Cells.{IsPairAfter, MeetsNoneAfter}, Faults.{IsFaultOf}};
    ghost use Rattle.gs_seq.specs.{Plans.{IsPlanOf, class_plan}, Rows.{IsRow, IsSingleIn}, Singles.{HasSumsOf}};
    ghost use Rattle.gs_seq.specs.{Slots.{IsPlan, sequence_count, slot_of}, Stops.{IsErrorAt, IsSmall, IsWithin, usual}};
    ghost use Rattle.gs_tree.specs.Trees.{rules_of};

    /// Returns the sequence form of a game with lossless classes, within the usual limits.
    /// Errors: the first limit that the game exceeds, or `Memory` if memory runs out.
    pub fn of(alloc: Global, lossless: &'a Lossless<'a>) -> Result<Abstract<'a>, SeqError>
        ensures held { IfOk result (λ a. a.lossless.now ≡ lossless.entry.now) }
        ensures small { IfOk result (λ a. IsSmall (abstract_frame a) (lists_of a)) }
        ensures refused { IfErr result (IsErrorAt usual (frame_in lossless.entry.now.signals.now.game.now) lossless.entry.now.classes.now.lists) }
    {
        Abstract::within(alloc, lossless, USUAL)
    }

    /// Returns the sequence form of a game with lossless classes, within the limits `most`.
    /// Errors: the first limit that the game exceeds, or `Memory` if memory runs out.
    pub fn within(
        alloc: Global,
        lossless: &'a Lossless<'a>,
        most: Limits,
    ) -> Result<Abstract<'a>, SeqError>
        requires { most.sequences ≤ 2 ^ 30 }
        ensures held { IfOk result (λ a. a.lossless.now ≡ lossless.entry.now) }
        ensures small { IfOk result (λ a. IsWithin most (abstract_frame a) (lists_of a)) }
        ensures refused { IfErr result (IsErrorAt most (frame_in lossless.entry.now.signals.now.game.now) lossless.entry.now.classes.now.lists) }
    {
        let signals = lossless.signals();
        let classes = lossless.classes();
        let game = signals.game();
        let (one, two) = few_slots(game, classes, most.sequences)?;
        let offsets = offsets_of(alloc, game, classes)?;
        let order = order_of(alloc, lossless)?;
        let rows = rows_of(alloc, lossless, order.is_some())?;
        let wholes = wholes_of(alloc, &rows)?;
        let count = cells(alloc, game, classes, &rows)?;
        if count > most.cells {
            return Err(SeqError::Fault(SeqFault::TooManyCells { count }));
        }
        Ok(Abstract {
            lossless,
            offsets,
            one,
            two,
            rows,
            wholes,
            order,
        })
    }

    /// Returns the game's signals with their lossless classes.
    pub fn lossless(&self) -> &'a Lossless<'a>
        ensures { result.now ≡ self.now.lossless.now }
    {
        self.lossless
    }

    /// Returns the classes.
    pub(crate) fn classes(&self) -> &'a Classes
        ensures lists { result.now.lists ≡ lists_of self.now }
        ensures parents { result.now.parents ≡ (abstract_frame self.now).parents }
    {
        self.lossless.classes()
    }

    /// Returns the number of sequences of a player, with the empty one counted.
    pub fn sequences(&self, player: u8) -> u32
        requires some { 0 < player }
        requires two { player ≤ 2 }
        ensures { result ≡ sequence_count (abstract_frame self.now) (lists_of self.now) player }
    {
        if player == 1 {
            self.one + 1
        } else {
            self.two + 1
        }
    }

    /// Returns the slot of a move at a point and a class: its place in the weights of the player who chooses there.
    pub fn slot(&self, point: u32, class: u32, choice: u8) -> u32
        requires point { point < point_count (abstract_frame self.now) }
        requires class { IsClass (lists_of self.now) (round_of (abstract_frame self.now) (at_point point)) class }
        requires choice { choice < move_count (abstract_frame self.now) point }
        ensures value { result ≡ slot_of (abstract_frame self.now) (lists_of self.now) point class choice }
        ensures within { result + 1 < sequence_count (abstract_frame self.now) (lists_of self.now) (player_at (abstract_frame self.now) point) }
    {
        let moves = u32::from(self.move_total(point));
        self.offsets[point as usize] + (class - 1) * moves + u32::from(choice)
    }

    /// Returns the pairs of a class of player 1 in a round that has rows.
    pub(crate) fn row(&self, round: u8, one: u32) -> &[Pair]
        requires some { 0 < round }
        requires listed { round ≤ length self.now.rows.items }
        requires class { IsClass (lists_of self.now) round one }
        ensures { IsRow (abstract_frame self.now) (lists_of self.now) round one result.now }
    {
        &self.rows[usize::from(round) - 1][one as usize - 1]
    }

    /// Returns the pairs of a class of player 1 in a round: one for each class of player 2 that it meets in some deal, in ascending order.
    pub fn pairs(&self, round: u8, one: u32) -> Pairs<'_>
        requires some { 0 < round }
        requires top { round ≤ last_round (abstract_frame self.now) }
        requires class { IsClass (lists_of self.now) round one }
        ensures { IsRow (abstract_frame self.now) (lists_of self.now) round one result }
    {
        if usize::from(round) <= self.rows.len() {
            return Pairs::listed(self.row(round, one));
        }
        Pairs::made(self.lossless.signals().deals_of(one - 1))
    }

    /// Returns the pair of a class of player 1 with the least class of player 2 above `after` that it meets in some deal.
    /// Returns `None` if there is no such class.
    pub fn pair_after(&self, round: u8, one: u32, after: u32) -> Option<Pair>
        requires some { 0 < round }
        requires top { round ≤ last_round (abstract_frame self.now) }
        requires class { IsClass (lists_of self.now) round one }
        ensures { MatchOption result (MeetsNoneAfter (abstract_frame self.now) (lists_of self.now) round one after)
            (IsPairAfter (abstract_frame self.now) (lists_of self.now) round one after) }
    {
        first_after(self.pairs(round, one), after)
    }

    /// Returns the signals of a round along their boards, if it is the last round and its pairs are made from deals.
    pub(crate) fn order_in(&self, round: u8) -> Option<&BoardOrder<'a>>
        requires { round ≤ last_round (abstract_frame self.now) }
        ensures signals { IfSome result (λ order. HasSumsOf (rules_of order.now.signals.now) (rules_of self.now.lossless.now.signals.now)) }
        ensures last { IfSome result (λ order. round ≡ last_round (abstract_frame self.now)) }
        ensures single { IfSome result (λ order. IsSingleIn (lists_of self.now) (last_round (abstract_frame self.now))) }
        ensures listed { result ≡ None → round ≤ length self.now.rows.items }
    {
        match &self.order {
            Some(order) if round == self.lossless.signals().rounds() => Some(order),
            _ => None,
        }
    }

    /// Returns for each point the slot of its first class and first move.
    pub(crate) fn offsets(&self) -> &[u32]
        ensures { AreOffsets (abstract_frame self.now) (lists_of self.now) result.now }
    {
        &self.offsets
    }

    /// Returns a plan, at an end.
    pub(crate) fn plan_at<'s>(&'s self, plan: &'s Plan, end: u32) -> PlanAtEnd<'s>
        requires some { 0 < plan.now.player }
        requires two { plan.now.player ≤ 2 }
        requires plan { IsPlanOf (abstract_frame self.now) (lists_of self.now) plan.now.player plan.now }
        requires end { end < end_count (abstract_frame self.now) }
        ensures form { IsOfForm self.now result }
        ensures plan { result.plan.now ≡ plan.now }
        ensures end { result.end ≡ end }
    {
        let game = self.game();
        let classes = self.classes();
        let source = end_source(game, self.offsets(), plan.player, end);
        PlanAtEnd {
            game,
            classes,
            plan,
            end,
            source,
        }
    }

    /// Returns the number of a plan at an end, at a class of the end's round.
    pub(crate) fn number_at(&self, at: &PlanAtEnd<'_>, class: u32) -> u64
        requires form { IsOfForm self.now at.now }
        requires class { IsClass (lists_of self.now) (round_of (abstract_frame self.now) (at_end at.now.end)) class }
        ensures value { let f = abstract_frame self.now in let lists = lists_of self.now in let p = at.now.plan.now in
            result ≡ class_number f lists p.player (class_plan f lists p) at.now.end class }
        ensures within { result ≤ at.now.plan.now.total }
    {
        at.number(class)
    }

    /// Returns a plan's number at an end and a class of the end's round: the weight of the player's last step before the end, at the class above.
    /// If the player made no step, the number is the total.
    pub fn number_at_end(&self, plan: &Plan, end: u32, class: u32) -> u64
        requires some { 0 < plan.now.player }
        requires two { plan.now.player ≤ 2 }
        requires plan { IsPlanOf (abstract_frame self.now) (lists_of self.now) plan.now.player plan.now }
        requires end { end < end_count (abstract_frame self.now) }
        requires class { IsClass (lists_of self.now) (round_of (abstract_frame self.now) (at_end end)) class }
        ensures value { result ≡ class_number (abstract_frame self.now) (lists_of self.now) plan.now.player
            (class_plan (abstract_frame self.now) (lists_of self.now) plan.now) end class }
        ensures within { result ≤ plan.now.total }
    {
        self.number_at(&self.plan_at(plan, end), class)
    }

    /// Makes a plan of a player from a total and weights in slot order. Errors: the first reason why they do not form a plan.
    pub fn plan(&self, player: u8, total: u64, weights: Vec<u64>) -> Result<Plan, PlanFault>
        requires some { 0 < player }
        requires two { player ≤ 2 }
        ensures player { IfOk result (λ p. p.player ≡ player) }
        ensures total { IfOk result (λ p. p.total ≡ total) }
        ensures weights { IfOk result (λ p. p.weights.items ≡ weights.items) }
        ensures plan { IfOk result (λ p. IsPlan (abstract_frame self.now) (lists_of self.now) player total weights.items) }
        ensures own { IfOk result (IsPlanOf (abstract_frame self.now) (lists_of self.now) player) }
        ensures refused { IfErr result (IsFaultOf (abstract_frame self.now) (lists_of self.now) player total weights.items) }
    {
        match plan_fault(self.game(), self.classes(), player, total, &weights) {
            None => Ok(Plan {
                player,
                total,
                weights,
            }),
            Some(fault) => Err(fault),
        }
    }
}
