//! The list of a player's best moves.

ghost use Rattle.std.specs.Prelude.{◌≡◌, ◌+◌, ◌≤◌, ◌++◌, IfOk, drop, length, take};
ghost use Rattle.gs_seq.specs.{Abstracts.{abstract_frame, lists_of}, Plans.{lifted}};
ghost use Rattle.gs_best.specs.{Filled.{IsFilled}, Answers.{AreChoices}};

use crate::side::Side;
use crate::tables::Table;
use std::alloc::{AllocError, Global};

/// Adds to `moves` the `count` picks from the place `start` on.
fn push_row(moves: &mut Vec<u8>, picks: &[u8], start: usize, count: usize) -> Result<(), AllocError>
    requires { start + count ≤ length picks.now }
    ensures { IfOk result (λ _. moves.new.items ≡ moves.old.items ++ take count (drop start picks.now)) }
{
    moves.extend_from_slice(&picks[start..start + count])
}

/// Returns the first best move for each own point and class of its round.
pub(crate) fn own_moves(
    alloc: Global,
    side: &Side<'_>,
    table: &Table,
) -> Result<Vec<u8>, AllocError>
    requires filled { IsFilled side.now table.now }
    ensures { let f = abstract_frame side.now.form.now in let lists = lists_of side.now.form.now in
        IfOk result (λ v. AreChoices f lists side.now.player (lifted f lists side.now.other.now) v.items) }
{
    let mut moves = Vec::new(alloc);
    for point in 0..side.form.point_total() {
        if side.form.chooser(point) == side.player {
            let start = table.starts[point as usize] as usize;
            let count = side.form.class_total(side.form.round_at(point)) as usize;
            push_row(&mut moves, &table.picks, start, count)?;
        }
    }
    Ok(moves)
}
