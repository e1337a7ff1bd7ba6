//! The pairs of classes that meet in some deal, in rows: a row for each class of player 1 in each round.

ghost use Rattle.std.specs.Prelude.{◌≡◌, ◌+◌, ◌*◌, ◌<◌, ◌≤◌, ◌^◌, IfOk, IsTrue, OnOk, All, false, length, map, pos, reverse, sum_by, unsigned_abs, ◌+ℤ◌, ◌*ℤ◌};
ghost use Rattle.gs_model.specs.{Classes.{IsClass}, Frame.{last_round}, Lossless.{IsLossless}};
ghost use Rattle.gs_lossless.specs.declared.aspects.Aspect.TheVariants as aspects;
ghost use Rattle.gs_seq.specs.{Cells.{AreCounts, cell_count}, Games.{frame_in}};
ghost use Rattle.gs_seq.specs.Rows.{AreRows, AreRowsIn, AreWholes, IsModerate, IsRow, IsSingleIn, IsSlim};
ghost use Rattle.gs_seq.specs.Rows.{gathered, join, pair_of, pairs_of, together, whole_row};

use crate::before::rows_before;
use crate::earlier::rows_above;
use crate::pair::Pair;
use crate::single::are_made;
use gs_filter::Classes;
use gs_game::ValidGame;
use gs_lossless::{Aspect, AspectKeys, Lossless, Part};
use gs_tree::Signals;
use std::alloc::{AllocError, Global};

/// Returns a weight times an outcome.
fn product(weight: u32, outcome: i8) -> i64
    ensures { result ≡ pos weight *ℤ outcome }
{
    i64::from(weight) * i64::from(outcome)
}

/// Returns a weight times an outcome, and bounds its size.
pub(crate) fn weighed_outcome(weight: u32, outcome: i8) -> i64
    ensures value { result ≡ pos weight *ℤ outcome }
    ensures size { unsigned_abs result ≤ 128 * weight }
{
    product(weight, outcome)
}

/// Returns the sum of two numbers that are too small to overflow.
fn plus(first: i64, second: i64) -> i64
    requires { unsigned_abs first + unsigned_abs second < 2 ^ 62 }
    ensures value { result ≡ first +ℤ second }
    ensures size { unsigned_abs result ≤ unsigned_abs first + unsigned_abs second }
{
    first + second
}

/// Returns the pair that a part of one member makes for its class, with the weight of all members.
fn pair_from(part: Part, members: u64) -> Pair
    requires { members * part.weight < 2 ^ 32 }
    ensures value { result ≡ pair_of members part }
    ensures moderate { IsModerate result }
{
    let weight = (members * u64::from(part.weight)) as u32;
    Pair {
        two: part.class,
        weight,
        signed: weighed_outcome(weight, part.outcome),
    }
}

/// Returns two pairs with one class as one pair, with both weights added.
fn joined(pair: Pair, more: Pair) -> Pair
    requires few { pair.weight + more.weight < 2 ^ 32 }
    requires pair { IsModerate pair }
    requires more { IsModerate more }
    ensures value { result ≡ together pair more }
    ensures moderate { IsModerate result }
{
    Pair {
        two: pair.two,
        weight: pair.weight + more.weight,
        signed: plus(pair.signed, more.signed),
    }
}

/// Adds a pair to a row: joins it to the last pair if both have the same class, otherwise puts it behind.
fn add(row: &mut Vec<Pair>, pair: Pair) -> Result<(), AllocError>
    requires few { sum_by (λ p. p.weight) row.old.items + pair.weight < 2 ^ 32 }
    requires moderate { All IsModerate row.old.items }
    requires pair { IsModerate pair }
    ensures row { OnOk result (reverse row.new.items ≡ join pair (reverse row.old.items)) }
    ensures moderate { OnOk result (All IsModerate row.new.items) }
{
    let count = row.len();
    if 0 < count {
        let last = row[count - 1];
        if last.two == pair.two {
            row[count - 1] = joined(last, pair);
            return Ok(());
        }
    }
    row.push(pair)?;
    Ok(())
}

/// Returns the row of a class, from the number of its members and the parts of one member in ascending order.
pub(crate) fn row_of(alloc: Global, sums: &[Part], members: u64) -> Result<Vec<Pair>, AllocError>
    requires { members * sum_by (λ p. p.weight) sums.now < 2 ^ 32 }
    ensures { IfOk result (λ v. v.items ≡ gathered members sums.now) }
{
    let mut row = Vec::with_capacity(alloc, sums.len())?;
    for part in sums {
        add(&mut row, pair_from(*part, members))?;
    }
    row.shrink_to_fit();
    Ok(row)
}

/// Returns the row of a class in a round, from the sums of its first member: all members have the same sums.
fn class_row(alloc: Global, deals: &AspectKeys<'_>, class: u32) -> Result<Vec<Pair>, AllocError>
    requires aspect { deals.now.aspect ≡ aspects.Deals }
    requires lossless { IsLossless (frame_in deals.now.signals.now.game.now) deals.now.classes.now.lists }
    requires class { IsClass deals.now.classes.now.lists deals.now.round class }
    ensures { IfOk result (λ v. IsRow (frame_in deals.now.signals.now.game.now) deals.now.classes.now.lists deals.now.round class v.items) }
{
    let first = deals.classes.first(deals.round, class);
    let sums = deals.sums(alloc, first)?;
    let members = deals.classes.size(deals.round, class);
    row_of(alloc, &sums, u64::from(members))
}

/// Returns the rows of a round, from all deals.
pub(crate) fn rows_in(
    alloc: Global,
    lossless: &Lossless,
    round: u8,
) -> Result<Vec<Vec<Pair>>, AllocError>
    requires some { 0 < round }
    requires top { round ≤ last_round (frame_in lossless.now.signals.now.game.now) }
    ensures { IfOk result (λ v. AreRowsIn (frame_in lossless.now.signals.now.game.now) lossless.now.classes.now.lists round v.items) }
{
    let deals = AspectKeys::of(
        alloc,
        lossless.signals,
        lossless.classes,
        Aspect::Deals,
        round,
    )?;
    let count = deals.classes.classes(deals.round);
    let mut rows = Vec::with_capacity(alloc, count as usize)?;
    for before in 0..count {
        let row = class_row(alloc, &deals, before + 1)?;
        rows.push(row)?;
    }
    Ok(rows)
}

/// Returns all pairs of a row as one.
fn whole_of(row: &[Pair]) -> Pair
    requires { IsSlim row.now }
    ensures { result ≡ whole_row row.now }
{
    let mut all = Pair {
        two: 0,
        weight: 0,
        signed: 0,
    };
    for pair in row {
        all = joined(all, *pair);
    }
    all
}

/// Returns for each row all its pairs as one.
fn wholes_in(alloc: Global, rows: &[Vec<Pair>]) -> Result<Vec<Pair>, AllocError>
    requires { All (λ v. IsSlim v.items) rows.now }
    ensures { IfOk result (λ v. v.items ≡ map (λ r. whole_row r.items) rows.now) }
{
    let mut wholes = Vec::with_capacity(alloc, rows.len())?;
    for row in rows {
        wholes.push(whole_of(row))?;
    }
    Ok(wholes)
}

/// Returns for each row of each round all its pairs as one.
pub(crate) fn wholes_of(
    alloc: Global,
    rows: &[Vec<Vec<Pair>>],
) -> Result<Vec<Vec<Pair>>, AllocError>
    requires { All (λ v. All (λ r. IsSlim r.items) v.items) rows.now }
    ensures { IfOk result (λ v. AreWholes rows.now v.items) }
{
    let mut wholes = Vec::with_capacity(alloc, rows.len())?;
    for in_round in rows {
        wholes.push(wholes_in(alloc, in_round)?)?;
    }
    Ok(wholes)
}

/// Returns the rows of all rounds. Makes those of the last round from its deals, and those of each earlier round from the rows of the next.
fn rows_listed(alloc: Global, lossless: &Lossless) -> Result<Vec<Vec<Vec<Pair>>>, AllocError>
    ensures rows { IfOk result (λ v. AreRows (frame_in lossless.now.signals.now.game.now) lossless.now.classes.now.lists v.items) }
    ensures all { IfOk result (λ v. length v.items ≡ last_round (frame_in lossless.now.signals.now.game.now)) }
{
    let last = lossless.signals.rounds();
    let of_last = rows_in(alloc, lossless, last)?;
    let mut rows = vec![in alloc; of_last]?;
    for round in (1..last).rev() {
        let above = rows_above(alloc, lossless, round, &rows[0])?;
        rows.insert(0, above)?;
    }
    Ok(rows)
}

/// Returns the rows of all rounds, or of all but the last round if its pairs are made from deals.
pub(crate) fn rows_of(
    alloc: Global,
    lossless: &Lossless,
    made: bool,
) -> Result<Vec<Vec<Vec<Pair>>>, AllocError>
    requires { IsTrue made → IsSingleIn lossless.now.classes.now.lists (last_round (frame_in lossless.now.signals.now.game.now)) }
    ensures rows { IfOk result (λ v. AreRows (frame_in lossless.now.signals.now.game.now) lossless.now.classes.now.lists v.items) }
    ensures all { IfOk result (λ v. made ≡ false → length v.items ≡ last_round (frame_in lossless.now.signals.now.game.now)) }
{
    if made {
        let rows = rows_before(alloc, lossless)?;
        return Ok(rows);
    }
    rows_listed(alloc, lossless)
}

/// Returns the number of pairs in some rows.
fn pairs_in(rows: &[Vec<Pair>]) -> u64
    requires { pairs_of rows.now < 2 ^ 64 }
    ensures { result ≡ pairs_of rows.now }
{
    let mut count = 0u64;
    for row in rows {
        count += row.len() as u64;
    }
    count
}

/// Returns the number of pairs in the listed rows of each round.
fn listed_counts(alloc: Global, rows: &[Vec<Vec<Pair>>]) -> Result<Vec<u64>, AllocError>
    requires { All (λ v. pairs_of v.items < 2 ^ 64) rows.now }
    ensures { IfOk result (λ n. n.items ≡ map (λ v. pairs_of v.items) rows.now) }
{
    let mut counts = Vec::with_capacity(alloc, rows.len())?;
    for in_round in rows {
        counts.push(pairs_in(in_round))?;
    }
    Ok(counts)
}

/// Returns the number of pairs of each round. Where pairs are made from deals, there are as many pairs as deals.
fn pair_counts(
    alloc: Global,
    game: &ValidGame,
    classes: &Classes,
    rows: &[Vec<Vec<Pair>>],
) -> Result<Vec<u64>, AllocError>
    requires parents { classes.now.parents ≡ (frame_in game.now).parents }
    requires rows { AreRows (frame_in game.now) classes.now.lists rows.now }
    ensures { IfOk result (λ n. AreCounts (frame_in game.now) classes.now.lists n.items) }
{
    let rounds = classes.rounds();
    let mut counts = listed_counts(alloc, rows)?;
    if counts.len() < usize::from(rounds) {
        counts.push(u64::from(game.deal_count()))?;
    }
    Ok(counts)
}

/// Returns the number of cells: the pairs of each end's round, added up over all ends.
pub(crate) fn cells(
    alloc: Global,
    game: &ValidGame,
    classes: &Classes,
    rows: &[Vec<Vec<Pair>>],
) -> Result<u64, AllocError>
    requires parents { classes.now.parents ≡ (frame_in game.now).parents }
    requires rows { AreRows (frame_in game.now) classes.now.lists rows.now }
    ensures { IfOk result (λ n. n ≡ cell_count (frame_in game.now) classes.now.lists) }
{
    let counts = pair_counts(alloc, game, classes, rows)?;
    let mut count = 0u64;
    for end in game.ends() {
        count += counts[usize::from(end.round) - 1];
    }
    Ok(count)
}

/// Returns the number of cells: over all ends, the pairs of classes of the end's round that meet in some deal, added up.
pub fn cell_total(alloc: Global, signals: &Signals, classes: &Classes) -> Result<u64, AllocError>
    requires parents { classes.now.parents ≡ (frame_in signals.now.game.now).parents }
    requires lossless { IsLossless (frame_in signals.now.game.now) classes.now.lists }
    ensures { IfOk result (λ n. n ≡ cell_count (frame_in signals.now.game.now) classes.now.lists) }
{
    let lossless = Lossless::known(signals, classes);
    let rows = rows_of(alloc, &lossless, are_made(signals, classes))?;
    cells(alloc, signals.game(), classes, &rows)
}
