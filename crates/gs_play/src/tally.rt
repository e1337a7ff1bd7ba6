//! A player's class totals and choices, as lines over the turns.

ghost use Rattle.std.specs.Prelude.{◌≡◌, ◌+◌, ◌<◌, ◌≤◌, ◌^◌, IfOk, length, take, drop};
ghost use Rattle.std.specs.List.{range_with_len};
ghost use Rattle.gs_model.specs.{Classes.{ClassLists}, Frame.{Frame}, Sums.{sum_z}};
ghost use Rattle.gs_play.specs.{DueTurns.{IsDues}, Lines.{line_at, wrapped}, Plots.{IsPlot}, Tallies.{HasTallyRoom, IsAddedUp, IsChosen, IsBlank, IsPicked}};

use crate::choosing::{first_greatest, first_until};
use crate::clock::Clock;
use crate::dues::{Dues, dues_of, set_due};
use crate::line::{Line, sum};
use crate::plot::Plot;
use std::alloc::{AllocError, Global};

/// A player's class totals. What they are in each turn is known by lines: where a line is not due, it is right until it is.
#[derive(Drop)]
pub(crate) struct Tally {
    /// what each move of each point is worth to each class
    pub(crate) worths: Vec<Line>,
    /// the class total of each cell
    pub(crate) totals: Vec<Line>,
    /// the turn in which each cell has to be looked at again
    pub(crate) dues: Dues,
    /// the move that each cell of the player chooses
    pub(crate) picks: Vec<u8>,
    /// for each point whether a choice there has changed since the answer was made
    pub(crate) moved: Vec<bool>,
}

/// Returns class totals that are 0 in all turns, and all due. Each choice is the first move.
pub(crate) fn tally_of(alloc: Global, plot: &Plot) -> Result<Tally, AllocError>
    ensures room { (f : Frame) (lists : ClassLists) → IsPlot f lists plot.now → IfOk result (HasTallyRoom f lists) }
    ensures clear { IfOk result IsBlank }
{
    let cells = plot.points.len();
    let flat = Line { at: 0, slope: 0 };
    let worths = vec![in alloc; flat; plot.worths]?;
    let totals = vec![in alloc; flat; cells]?;
    let dues = dues_of(alloc, cells, 0)?;
    let picks = vec![in alloc; 0u8; cells]?;
    let moved = vec![in alloc; false; plot.rows.len()]?;
    Ok(Tally {
        worths,
        totals,
        dues,
        picks,
        moved,
    })
}

/// Sets the choice of a cell of a point.
fn pick(tally: &mut Tally, point: usize, cell: usize, best: u8)
    requires cell { cell < length tally.old.picks.items }
    requires point { point < length tally.old.moved.items }
    ensures picked { IsPicked point cell best tally.old tally.new }
    ensures worths { tally.new.worths ≡ tally.old.worths }
    ensures totals { tally.new.totals ≡ tally.old.totals }
    ensures dues { tally.new.dues ≡ tally.old.dues }
{
    if tally.picks[cell] != best {
        tally.picks[cell] = best;
        tally.moved[point] = true;
    }
}

/// Finds the choice of a cell again from the worths of its moves, and up to which turn it stays.
pub(crate) fn choose(
    tally: &mut Tally,
    point: usize,
    cell: usize,
    first: usize,
    moves: usize,
    clock: Clock,
)
    requires dues { IsDues tally.old.dues }
    requires point { point < length tally.old.moved.items }
    requires cell { cell < length tally.old.dues.turns.items }
    requires totals { cell < length tally.old.totals.items }
    requires picks { cell < length tally.old.picks.items }
    requires worths { first + moves ≤ length tally.old.worths.items }
    requires some { 0 < moves }
    requires few { moves < 2 ^ 8 }
    ensures worths { tally.new.worths ≡ tally.old.worths }
    ensures dues { IsDues tally.new.dues }
    ensures blocks { length tally.new.dues.soonest.items ≡ length tally.old.dues.soonest.items }
    ensures found { IsChosen (take moves (drop first tally.old.worths.items)) point cell clock.turn clock.last tally.old tally.new }
{
    let lines = &tally.worths[first..first + moves];
    let best = first_greatest(lines, clock.turn);
    let until = first_until(lines, best, clock.turn, clock.last);
    let line = lines[best];
    tally.totals[cell] = line;
    pick(tally, point, cell, best as u8);
    set_due(&mut tally.dues, cell, until);
}

/// Returns the sum of some lines.
fn sum_of(lines: &[Line]) -> Line
    ensures at { result.at ≡ wrapped (sum_z (λ m. (line_at lines.now m).at) (range_with_len 0 (length lines.now))) }
    ensures slope { result.slope ≡ wrapped (sum_z (λ m. (line_at lines.now m).slope) (range_with_len 0 (length lines.now))) }
{
    let mut all = Line { at: 0, slope: 0 };
    for line in lines {
        all = sum(all, *line);
    }
    all
}

/// Finds the class total of a cell of the other player again: the sum of the worths of all moves. It is due in the last turn.
pub(crate) fn add_up(tally: &mut Tally, cell: usize, first: usize, moves: usize, last: u32)
    requires dues { IsDues tally.old.dues }
    requires cell { cell < length tally.old.dues.turns.items }
    requires totals { cell < length tally.old.totals.items }
    requires worths { first + moves ≤ length tally.old.worths.items }
    ensures worths { tally.new.worths ≡ tally.old.worths }
    ensures dues { IsDues tally.new.dues }
    ensures blocks { length tally.new.dues.soonest.items ≡ length tally.old.dues.soonest.items }
    ensures moved { tally.new.moved ≡ tally.old.moved }
    ensures found { IsAddedUp (take moves (drop first tally.old.worths.items)) cell last tally.old tally.new }
{
    let all = sum_of(&tally.worths[first..first + moves]);
    tally.totals[cell] = all;
    set_due(&mut tally.dues, cell, last);
}
