//! What an end pays all classes of its round, from the other player's numbers there.

ghost use Rattle.std.specs.Prelude.{◌≡◌, ◌-◌, ◌<◌, ◌≤◌, ◌*ℤ◌, ℕ, length, pos, slice_index, true};
ghost use Rattle.gs_boards.specs.Boards.{paid};
ghost use Rattle.gs_game.specs.Seen.{end_of};
ghost use Rattle.gs_model.specs.{Deals.{Deal as Dealt}, Frame.{end_count}};
ghost use Rattle.gs_seq.specs.{Abstracts.{abstract_frame, lists_of}, Payoffs.{AreFew, end_classes, pair_pays}, Singles.{deal_pair}};

use crate::form::Abstract;
use crate::pair::Pair;
use crate::payoff::times_pays;
use crate::plan::Plan;
use crate::weighing::{number_of, row_paid};
use gs_boards::{BoardOrder, Pays};
use gs_game::{End, EndKind};

/// Returns whether the first `count` numbers of a list are all the same.
fn are_same(numbers: &[u64], count: usize) -> bool
    requires { count ≤ length numbers.now }
    ensures { result ≡ true → (k : ℕ) → k < count → slice_index numbers.now k ≡ slice_index numbers.now 0 }
{
    for place in 0..count {
        if numbers[place] != numbers[0] {
            return false;
        }
    }
    true
}

/// Returns what an end pays a player in a deal, as a function of the player's outcome.
fn pays_at(player: u8, end: End) -> Pays
    ensures { (d : Dealt) → pos d.weight *ℤ paid result d.outcome ≡ pair_pays player (end_of end) (deal_pair d) }
{
    let put = i32::from(end.put);
    let folder = match end.kind {
        EndKind::Folded1 => 1,
        EndKind::Folded2 => 2,
        EndKind::Show => return Pays::Showdown(end.put),
    };
    Pays::Fixed(if player == folder { -put } else { put })
}

impl<'a> Abstract<'a> {
    ghost use Rattle.std.specs.Prelude.{◌+◌, get_or};
    ghost use Rattle.gs_model.specs.{Classes.{IsClass}, Frame.{end_at, last_round, other_player, round_of}, Positions.{at_end}};
    ghost use Rattle.gs_seq.specs.{Payoffs.{AreNumbersAt, end_sum}, Plans.{IsPlanOf, class_plan}};

    /// Returns an end of the game, with its round.
    pub fn end_in(&self, end: u32) -> End
        requires { end < end_count (abstract_frame self.now) }
        ensures value { end_of result ≡ end_at (abstract_frame self.now) end }
        ensures round { result.round ≡ round_of (abstract_frame self.now) (at_end end) }
        ensures some { 0 < result.round }
        ensures top { result.round ≤ last_round (abstract_frame self.now) }
    {
        self.game().ends()[end as usize]
    }

    /// Returns the number of classes of an end's round.
    pub(crate) fn end_class_total(&self, end: u32) -> u32
        requires { end < end_count (abstract_frame self.now) }
        ensures { result ≡ end_classes (abstract_frame self.now) (lists_of self.now) end }
    {
        self.classes().classes(self.end_in(end).round)
    }

    /// Writes `end_sum` at each own class into `sums`, class by class: what an end pays a player against a plan of the other player.
    /// Leaves the rest of `sums` as it is. Overwrites `numbers` with the other player's numbers at the end.
    pub fn end_sums(
        &self,
        player: u8,
        other: &Plan,
        end: u32,
        sums: &mut [i128],
        numbers: &mut [u64],
    )
        requires some { 0 < player }
        requires two { player ≤ 2 }
        requires other { IsPlanOf (abstract_frame self.now) (lists_of self.now) (other_player player) other.now }
        requires end { end < end_count (abstract_frame self.now) }
        requires wide { end_classes (abstract_frame self.now) (lists_of self.now) end ≤ length numbers.old }
        requires room { end_classes (abstract_frame self.now) (lists_of self.now) end ≤ length sums.old }
        ensures here { let f = abstract_frame self.now in let lists = lists_of self.now in
            (c : ℕ) → IsClass lists (round_of f (at_end end)) c
            → get_or sums.new (c - 1) (pos 0) ≡ end_sum f lists player (class_plan f lists other.now) end c }
        ensures behind { (i : ℕ) → end_classes (abstract_frame self.now) (lists_of self.now) end ≤ i → get_or sums.new i (pos 0) ≡ get_or sums.old i (pos 0) }
        ensures numbers { let f = abstract_frame self.now in let lists = lists_of self.now in
            AreNumbersAt f lists (other_player player) (class_plan f lists other.now) end numbers.new }
    {
        self.read_numbers(other, end, numbers);
        let paying = Paying {
            form: self,
            player,
            end,
            numbers,
        };
        match self.order_in(self.end_in(end).round) {
            Some(order) => paying.pay_along(order, sums),
            None => paying.pay_all(sums),
        }
    }

    /// Writes into `numbers` a plan's numbers at an end, class by class.
    #[inline(never)]
    fn read_numbers(&self, plan: &Plan, end: u32, numbers: &mut [u64])
        requires some { 0 < plan.now.player }
        requires two { plan.now.player ≤ 2 }
        requires plan { IsPlanOf (abstract_frame self.now) (lists_of self.now) plan.now.player plan.now }
        requires end { end < end_count (abstract_frame self.now) }
        requires wide { end_classes (abstract_frame self.now) (lists_of self.now) end ≤ length numbers.old }
        ensures numbers { let f = abstract_frame self.now in let lists = lists_of self.now in
            AreNumbersAt f lists plan.now.player (class_plan f lists plan.now) end numbers.new }
        ensures few { AreFew (end_classes (abstract_frame self.now) (lists_of self.now) end) numbers.new }
    {
        let at = self.plan_at(plan, end);
        for before in 0..self.end_class_total(end) {
            numbers[before as usize] = self.number_at(&at, before + 1);
        }
    }
}

/// An end that pays a player, with the other player's numbers there: one for each class of the end's round.
#[derive(Clone, Copy)]
struct Paying<'a> {
    form: &'a Abstract<'a>,
    player: u8,
    end: u32,
    numbers: &'a [u64],
    ghost some: { 0 < player },
    ghost two: { player ≤ 2 },
    ghost inside: { end < end_count (abstract_frame form.now) },
    ghost wide: { end_classes (abstract_frame form.now) (lists_of form.now) end ≤ length numbers.now },
    ghost few: { AreFew (end_classes (abstract_frame form.now) (lists_of form.now) end) numbers.now },
}

impl<'a> Paying<'a> {
    ghost use Rattle.std.specs.Prelude.{IfSome};
    ghost use Rattle.gs_model.specs.{Classes.{IsClass}, Frame.{last_round, round_of}, Positions.{at_end}};
    ghost use Rattle.gs_seq.specs.{Payoffs.{ArePaid, AreWholesFor, number_sum}, Rows.{IsSingleIn}, Singles.{HasSumsOf}};
    ghost use Rattle.gs_tree.specs.Trees.{rules_of};

    /// Returns for each class all pairs of its row as one, if the numbers are all the same.
    fn wholes(&self) -> Option<&'a [Pair]>
        requires { round_of (abstract_frame self.now.form.now) (at_end self.now.end) ≤ length self.now.form.now.rows.items }
        ensures { let a = self.now.form.now in
            IfSome result (λ wholes. AreWholesFor (abstract_frame a) (lists_of a) self.now.end self.now.numbers.now wholes.now) }
    {
        let round = usize::from(self.form.end_in(self.end).round);
        let count = self.form.end_class_total(self.end) as usize;
        if !are_same(self.numbers, count) {
            return None;
        }
        Some(&self.form.wholes[round - 1])
    }

    /// Writes into `sums` what `pay_all` writes, for an end of the last round where each signal is a class of its own. Sums along the boards.
    fn pay_along(&self, order: &BoardOrder<'_>, sums: &mut [i128])
        requires last { let f = abstract_frame self.now.form.now in round_of f (at_end self.now.end) ≡ last_round f }
        requires single { IsSingleIn (lists_of self.now.form.now) (last_round (abstract_frame self.now.form.now)) }
        requires order { HasSumsOf (rules_of order.now.signals.now) (rules_of self.now.form.now.lossless.now.signals.now) }
        requires room { end_classes (abstract_frame self.now.form.now) (lists_of self.now.form.now) self.now.end ≤ length sums.old }
        ensures { let o = self.now in ArePaid (abstract_frame o.form.now) (lists_of o.form.now) o.player o.numbers.now o.end sums.old sums.new }
    {
        let stop = self.form.end_class_total(self.end) as usize;
        let pays = pays_at(self.player, self.form.end_in(self.end));
        order.deal_sums(pays, self.numbers, &mut sums[0..stop]);
    }

    /// Writes into `sums` what an end of a round with rows pays a player at each own class, class by class. Leaves the rest of `sums` as it is.
    fn pay_all(&self, sums: &mut [i128])
        requires listed { round_of (abstract_frame self.now.form.now) (at_end self.now.end) ≤ length self.now.form.now.rows.items }
        requires room { end_classes (abstract_frame self.now.form.now) (lists_of self.now.form.now) self.now.end ≤ length sums.old }
        ensures { let o = self.now in ArePaid (abstract_frame o.form.now) (lists_of o.form.now) o.player o.numbers.now o.end sums.old sums.new }
    {
        let wholes = self.wholes();
        for before in 0..self.form.end_class_total(self.end) {
            sums[before as usize] = self.paid(before + 1, wholes);
        }
    }

    /// Returns what the end pays the player at an own class: by one product if `wholes` is given.
    fn paid(&self, class: u32, wholes: Option<&[Pair]>) -> i128
        requires class { IsClass (lists_of self.now.form.now) (round_of (abstract_frame self.now.form.now) (at_end self.now.end)) class }
        requires listed { round_of (abstract_frame self.now.form.now) (at_end self.now.end) ≤ length self.now.form.now.rows.items }
        requires wholes { let a = self.now.form.now in
            IfSome wholes (λ w. AreWholesFor (abstract_frame a) (lists_of a) self.now.end self.now.numbers.now w.now) }
        ensures { let a = self.now.form.now in result ≡ number_sum (abstract_frame a) (lists_of a) self.now.player self.now.numbers.now self.now.end class }
    {
        let at = self.form.end_in(self.end);
        match wholes {
            Some(wholes) => {
                let number = number_of(self.numbers, class);
                times_pays(number, self.player, at, wholes[class as usize - 1])
            }
            None => row_paid(
                self.player,
                at,
                self.form.row(at.round, class),
                self.numbers,
            ),
        }
    }
}
