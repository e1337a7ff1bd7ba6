//! The rows of rounds before the last, from the games that stop after them: after a round all pairs of signals continue in equally many ways.

ghost use Rattle.std.specs.{Prelude.{◌≡◌, ◌+◌, ◌-◌, ◌<◌, ℕ, IfOk, IfSome, get_or, length, Vec}, declared.alloc.Global.{Global}};
ghost use Rattle.gs_game.specs.GoingOn.{StopsAfter, ways_on as ways_after};
ghost use Rattle.gs_model.specs.{Classes.{IsClass, list_of}, Frame.{last_round}, Game.{round_count}};
ghost use Rattle.gs_tree.specs.Trees.{rules_of};
ghost use Rattle.gs_lossless.specs.declared.aspects.Aspect.TheVariants as aspects;
ghost use Rattle.gs_seq.specs.{Games.{frame_in}, Rows.{AreRowsIn, IsRow}, declared.pair.Pair.{Pair as Paired}};

use crate::pair::Pair;
use crate::rows::{row_of, rows_in};
use gs_filter::Classes;
use gs_lossless::{Aspect, AspectKeys, Lossless, stopped_classes};
use gs_tree::Signals;
use std::alloc::{AllocError, Global};

/// A round before the last with its classes, and the game that stops after it with the same classes of the round.
#[derive(Clone, Copy)]
struct StoppedRound<'a> {
    lossless: &'a Lossless<'a>,
    round: u8,
    stopped: &'a Signals<'a>,
    seen: &'a Classes,
    ghost some: { 0 < round },
    ghost before_last: { round < round_count (rules_of lossless.now.signals.now) },
    ghost stops: { StopsAfter (rules_of lossless.now.signals.now) round (rules_of stopped.now) },
    ghost over: { seen.now.parents ≡ (frame_in stopped.now.game.now).parents },
    ghost same: { list_of seen.now.lists round ≡ list_of lossless.now.classes.now.lists round },
}

/// Returns the number of ways to continue after a round: the weight of all deals divided by the weight of the deals of the game that stops there.
fn ways_on(at: &StoppedRound<'_>) -> u64
    ensures { result ≡ ways_after (rules_of at.now.lossless.now.signals.now) at.now.round }
{
    at.lossless.signals.game().weight() / at.stopped.game().weight()
}

/// Returns the row of a class of a round before the last. Reads the deals of the first member in the game that stops after the round.
fn row_by(
    alloc: Global,
    at: &StoppedRound<'_>,
    deals: &AspectKeys<'_>,
    ways: u64,
    class: u32,
) -> Result<Vec<Pair>, AllocError>
    requires signals { deals.now.signals.now ≡ at.now.stopped.now }
    requires classes { deals.now.classes.now ≡ at.now.seen.now }
    requires aspect { (deals.now.aspect ≡ aspects.Deals) × (deals.now.round ≡ at.now.round) }
    requires ways { ways ≡ ways_after (rules_of at.now.lossless.now.signals.now) at.now.round }
    requires class { IsClass at.now.lossless.now.classes.now.lists at.now.round class }
    ensures { IfOk result (λ v. IsRow (frame_in at.now.lossless.now.signals.now.game.now) at.now.lossless.now.classes.now.lists at.now.round class v.items) }
{
    let classes = at.lossless.classes;
    let first = classes.first(at.round, class);
    let sums = deals.sums(alloc, first)?;
    row_of(
        alloc,
        &sums,
        u64::from(classes.size(at.round, class)) * ways,
    )
}

/// Returns the rows of a round before the last, from the game that stops after it.
fn rows_by(alloc: Global, at: &StoppedRound<'_>) -> Result<Vec<Vec<Pair>>, AllocError>
    ensures { IfOk result (λ v. AreRowsIn (frame_in at.now.lossless.now.signals.now.game.now) at.now.lossless.now.classes.now.lists at.now.round v.items) }
{
    let deals = AspectKeys::of(alloc, at.stopped, at.seen, Aspect::Deals, at.round)?;
    let ways = ways_on(at);
    let count = at.lossless.classes.classes(at.round);
    let mut rows = Vec::with_capacity(alloc, count as usize)?;
    for before in 0..count {
        let row = row_by(alloc, at, &deals, ways, before + 1)?;
        rows.push(row)?;
    }
    Ok(rows)
}

/// Returns the rows of a round before the last, made from the game that stops after it. `stopped` has the signals of that game.
/// Returns `None` if the class lists of the first rounds are not classes of that game.
fn rows_over(
    alloc: Global,
    lossless: &Lossless,
    round: u8,
    stopped: &Signals,
) -> Result<Option<Vec<Vec<Pair>>>, AllocError>
    requires some { 0 < round }
    requires before_last { round < round_count (rules_of lossless.now.signals.now) }
    requires stops { StopsAfter (rules_of lossless.now.signals.now) round (rules_of stopped.now) }
    ensures { IfOk result (λ o. IfSome o
        (λ v. AreRowsIn (frame_in lossless.now.signals.now.game.now) lossless.now.classes.now.lists round v.items)) }
{
    let Some(seen) = stopped_classes(alloc, stopped, lossless.classes, round)? else {
        return Ok(None);
    };
    let at = StoppedRound {
        lossless,
        round,
        stopped,
        seen: &seen,
    };
    Ok(Some(rows_by(alloc, &at)?))
}

/// Returns the rows of a round before the last, made from the game that stops after it. Returns `None` if there is no such game, or if the class lists of the
/// first rounds are not classes of it.
fn rows_from(
    alloc: Global,
    lossless: &Lossless,
    round: u8,
) -> Result<Option<Vec<Vec<Pair>>>, AllocError>
    requires some { 0 < round }
    requires before_last { round < round_count (rules_of lossless.now.signals.now) }
    ensures { IfOk result (λ o. IfSome o
        (λ v. AreRowsIn (frame_in lossless.now.signals.now.game.now) lossless.now.classes.now.lists round v.items)) }
{
    let Some(game) = lossless.signals.game().stopped(alloc, round)? else {
        return Ok(None);
    };
    let stopped = Signals::of(alloc, &game)?;
    rows_over(alloc, lossless, round, &stopped)
}

/// Returns the rows of a round before the last. Walks all deals if they cannot be made from a game that stops after the round.
fn rows_at(alloc: Global, lossless: &Lossless, round: u8) -> Result<Vec<Vec<Pair>>, AllocError>
    requires some { 0 < round }
    requires before_last { round < round_count (rules_of lossless.now.signals.now) }
    ensures { IfOk result (λ v. AreRowsIn (frame_in lossless.now.signals.now.game.now) lossless.now.classes.now.lists round v.items) }
{
    match rows_from(alloc, lossless, round)? {
        Some(rows) => Ok(rows),
        None => rows_in(alloc, lossless, round),
    }
}

/// Returns the rows of all rounds before the last.
pub(crate) fn rows_before(
    alloc: Global,
    lossless: &Lossless,
) -> Result<Vec<Vec<Vec<Pair>>>, AllocError>
    ensures long { IfOk result (λ v. length v.items + 1 ≡ last_round (frame_in lossless.now.signals.now.game.now)) }
    ensures rows { IfOk result (λ v. (k : ℕ) (d : Vec (Vec Paired Global) Global) → k < length v.items
        → AreRowsIn (frame_in lossless.now.signals.now.game.now) lossless.now.classes.now.lists (k + 1) (get_or v.items k d).items) }
{
    let count = lossless.signals.rounds() - 1;
    let mut rows = Vec::with_capacity(alloc, usize::from(count))?;
    for before in 0..count {
        let at = rows_at(alloc, lossless, before + 1)?;
        rows.push(at)?;
    }
    Ok(rows)
}
