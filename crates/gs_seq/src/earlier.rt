//! The rows of a round, made from those of the next round: the weight of two classes is the total weight of the classes that descend from them.

ghost use Rattle.std.specs.Prelude.{◌≡◌, ◌+◌, ◌<◌, ◌++◌, All, IfOk, OnOk, flat_map, length, map};
ghost use Rattle.gs_model.specs.{Classes.{IsClass, class_count}, Frame.{last_round}};
ghost use Rattle.gs_seq.specs.{Games.{frame_in}, Rows.{AreBelow, AreRowsIn, HasPairsBelow, IsRow, below_class, part_up, row_at}};

use crate::pair::Pair;
use crate::rows::row_of;
use gs_filter::Classes;
use gs_lossless::{Lossless, Part, empty_lists};
use std::alloc::{AllocError, Global};

/// Returns for each class of a round the classes of the next round that descend from it, in ascending order.
fn classes_below(alloc: Global, classes: &Classes, round: u8) -> Result<Vec<Vec<u32>>, AllocError>
    requires some { 0 < round }
    requires before_last { round < length classes.now.lists }
    ensures { IfOk result (λ v. AreBelow classes.now round (class_count classes.now.lists (round + 1)) v.items) }
{
    let mut below = empty_lists(alloc, classes.classes(round))?;
    for before in 0..classes.classes(round + 1) {
        let above = classes.parent_class(round + 1, before + 1);
        below[above as usize - 1].push(before + 1)?;
    }
    Ok(below)
}

/// Adds the pairs of a row of the next round to `parts`: the weight of each counts at the class from which player 2's class descends.
fn push_above(
    classes: &Classes,
    round: u8,
    row: &[Pair],
    parts: &mut Vec<Part>,
) -> Result<(), AllocError>
    requires some { 0 < round }
    requires before_last { round < length classes.now.lists }
    requires classes { All (λ p. IsClass classes.now.lists (round + 1) p.two) row.now }
    ensures { OnOk result (parts.new.items ≡ parts.old.items ++ map (part_up classes.now round) row.now) }
{
    for pair in row {
        parts.push(Part {
            class: classes.parent_class(round + 1, pair.two),
            outcome: 0,
            weight: pair.weight,
        })?;
    }
    Ok(())
}

/// Returns the pairs of some classes of the next round as parts.
fn parts_above(
    alloc: Global,
    classes: &Classes,
    round: u8,
    below: &[u32],
    rows: &[Vec<Pair>],
) -> Result<Vec<Part>, AllocError>
    requires some { 0 < round }
    requires before_last { round < length classes.now.lists }
    requires below { All (λ k. HasPairsBelow classes.now round rows.now k) below.now }
    ensures { IfOk result (λ v. v.items ≡ flat_map (λ k. map (part_up classes.now round) (row_at rows.now k)) below.now) }
{
    let mut parts = Vec::new(alloc);
    for class in below {
        push_above(classes, round, &rows[*class as usize - 1], &mut parts)?;
    }
    Ok(parts)
}

/// Returns the row of a class of a round, from the classes below it and the rows of the next round.
fn row_above(
    alloc: Global,
    lossless: &Lossless,
    round: u8,
    class: u32,
    below: &[u32],
    rows: &[Vec<Pair>],
) -> Result<Vec<Pair>, AllocError>
    requires some { 0 < round }
    requires before_last { round < last_round (frame_in lossless.now.signals.now.game.now) }
    requires class { IsClass lossless.now.classes.now.lists round class }
    requires below { below.now ≡ below_class lossless.now.classes.now round class (class_count lossless.now.classes.now.lists (round + 1)) }
    requires rows { AreRowsIn (frame_in lossless.now.signals.now.game.now) lossless.now.classes.now.lists (round + 1) rows.now }
    ensures { IfOk result (λ v. IsRow (frame_in lossless.now.signals.now.game.now) lossless.now.classes.now.lists round class v.items) }
{
    let classes = lossless.classes();
    let mut parts = parts_above(alloc, classes, round, below, rows)?;
    parts.sort_unstable_by_key(|part| part.class);
    row_of(alloc, &parts, 1)
}

/// Returns the rows of all classes of a round, from the rows of the next round.
pub(crate) fn rows_above(
    alloc: Global,
    lossless: &Lossless,
    round: u8,
    rows: &[Vec<Pair>],
) -> Result<Vec<Vec<Pair>>, AllocError>
    requires some { 0 < round }
    requires before_last { round < last_round (frame_in lossless.now.signals.now.game.now) }
    requires rows { AreRowsIn (frame_in lossless.now.signals.now.game.now) lossless.now.classes.now.lists (round + 1) rows.now }
    ensures { IfOk result (λ v. AreRowsIn (frame_in lossless.now.signals.now.game.now) lossless.now.classes.now.lists round v.items) }
{
    let classes = lossless.classes();
    let below = classes_below(alloc, classes, round)?;
    let count = classes.classes(round);
    let mut above = Vec::with_capacity(alloc, count as usize)?;
    for before in 0..count {
        let row = row_above(
            alloc,
            lossless,
            round,
            before + 1,
            &below[before as usize],
            rows,
        )?;
        above.push(row)?;
    }
    Ok(above)
}
