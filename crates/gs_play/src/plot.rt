//! Where the numbers of a game stand, and what counts for what.

ghost use Rattle.std.specs.Prelude.{◌≡◌, ◌+◌, ◌<◌, ◌≤◌, ℕ, IfOk, OnOk, Option, length, option_map, replicate, ◌++◌};
ghost use Rattle.gs_game.specs.Seen.{step_of};
ghost use Rattle.gs_model.specs.{Classes.{IsClass}, Frame.{end_count, last_step, leads_to, move_count, player_at, point_count, round_of}};
ghost use Rattle.gs_model.specs.Positions.{Step as ModelStep, at_point};
ghost use Rattle.gs_seq.specs.Abstracts.{abstract_frame, lists_of};
ghost use Rattle.gs_best.specs.Tables.{start_of};
ghost use Rattle.gs_play.specs.Plots.{AreAbove, AreCells, AreRowsBefore, AreSpans, AreMovesNoted, AreWider, HasAbove, HasEnd, IsAbove};
ghost use Rattle.gs_play.specs.Plots.{IsGate, IsMoveNoted, IsPlot, IsRowIn, IsStepBefore, worth_start};

use gs_game::{Step, Target};
use gs_seq::{Abstract, end_step};
use std::alloc::{AllocError, Global};

/// A point as a row of cells, one for each class of its round.
#[derive(Clone, Copy)]
pub(crate) struct PointRow {
    pub(crate) point: u32,
    /// who chooses there
    pub(crate) player: u8,
    pub(crate) round: u8,
    /// the number of moves
    pub(crate) moves: usize,
    /// the first cell
    pub(crate) cell: usize,
    /// the first worth of the first cell
    pub(crate) worth: usize,
}

/// A move of a point, with the row of the point and the round to which the move leads.
#[derive(Clone, Copy)]
pub(crate) struct Way {
    pub(crate) row: PointRow,
    pub(crate) choice: u8,
    pub(crate) round: u8,
}

/// Ends, from the first one up to but not including the stop.
#[derive(Clone, Copy)]
pub(crate) struct Span {
    pub(crate) first: u32,
    pub(crate) stop: u32,
}

/// Where the numbers of a game stand. A cell is a point with a class of its round. The cells of a point follow one another, and so do their worths.
#[derive(Drop)]
pub(crate) struct Plot {
    /// for each point its row
    pub(crate) rows: Vec<PointRow>,
    /// the number of worths
    pub(crate) worths: usize,
    /// for each cell its point
    pub(crate) points: Vec<u32>,
    /// for each point the move that leads there; `None` if no move does
    pub(crate) to_points: Vec<Option<Step>>,
    /// for each end the move that leads there; `None` if no move does
    pub(crate) to_ends: Vec<Option<Step>>,
    /// for each point a span with all ends before which its player chose there last
    pub(crate) spans: Vec<Span>,
    /// for each cell the cell above it in which its player took a step last; 0 if there is none
    pub(crate) gates: Vec<u32>,
}

/// Returns the row of a point whose first cell and first worth stand at these places.
fn row_of(form: &Abstract, point: u32, cell: usize, worth: usize) -> PointRow
    requires point { point < point_count (abstract_frame form.now) }
    requires cell { cell ≡ start_of (abstract_frame form.now) (lists_of form.now) point }
    requires worth { worth ≡ worth_start (abstract_frame form.now) (lists_of form.now) point }
    ensures point { result.point ≡ point }
    ensures row { IsRowIn (abstract_frame form.now) (lists_of form.now) result }
{
    PointRow {
        point,
        player: form.chooser(point),
        round: form.round_at(point),
        moves: usize::from(form.move_total(point)),
        cell,
        worth,
    }
}

/// Returns the row of each point, and the number of worths.
fn rows_of(alloc: Global, form: &Abstract) -> Result<(Vec<PointRow>, usize), AllocError>
    ensures many { IfOk result (λ r. length r.0.items ≡ point_count (abstract_frame form.now)) }
    ensures rows { IfOk result (λ r. AreRowsBefore (abstract_frame form.now) (lists_of form.now) (point_count (abstract_frame form.now)) r.0.items) }
    ensures worths { IfOk result (λ r. r.1 ≡ worth_start (abstract_frame form.now) (lists_of form.now) (point_count (abstract_frame form.now))) }
{
    let mut rows = Vec::new(alloc);
    let mut cell = 0;
    let mut worth = 0;
    for point in 0..form.point_total() {
        let row = row_of(form, point, cell, worth);
        let classes = form.class_total(row.round) as usize;
        rows.push(row)?;
        cell += classes;
        worth += classes * row.moves;
    }
    Ok((rows, worth))
}

/// Adds a point `count` times to a list.
fn add_cells(points: &mut Vec<u32>, point: u32, count: u32) -> Result<(), AllocError>
    ensures { OnOk result (points.new.items ≡ points.old.items ++ replicate count point) }
{
    for _n in 0..count {
        points.push(point)?;
    }
    Ok(())
}

/// Returns the point of each cell.
fn cells_of(alloc: Global, form: &Abstract) -> Result<Vec<u32>, AllocError>
    ensures long { IfOk result (λ v. length v.items ≡ start_of (abstract_frame form.now) (lists_of form.now) (point_count (abstract_frame form.now))) }
    ensures cells { IfOk result (λ v. AreCells (abstract_frame form.now) (lists_of form.now) v.items) }
{
    let mut points = Vec::new(alloc);
    for point in 0..form.point_total() {
        add_cells(&mut points, point, form.class_total(form.round_at(point)))?;
    }
    Ok(points)
}

/// Returns the last step before a point of the player who chooses there.
pub(crate) fn gate_of(form: &Abstract, point: u32) -> Option<Step>
    requires { point < point_count (abstract_frame form.now) }
    ensures { IsGate (abstract_frame form.now) point result }
{
    form.game().points()[point as usize].own
}

/// Returns the cell above a class of a point in which a step was made. Returns 0 if there is no step.
fn cell_above(form: &Abstract, rows: &[PointRow], point: u32, step: Option<Step>, class: u32) -> u32
    requires long_rows { length rows.now ≡ point_count (abstract_frame form.now) }
    requires rows { AreRowsBefore (abstract_frame form.now) (lists_of form.now) (point_count (abstract_frame form.now)) rows.now }
    requires point { point < point_count (abstract_frame form.now) }
    requires step { IsStepBefore (abstract_frame form.now) (option_map step_of step) point }
    requires class { IsClass (lists_of form.now) (round_of (abstract_frame form.now) (at_point point)) class }
    ensures { IsAbove (abstract_frame form.now) (lists_of form.now) (option_map step_of step) point class result }
{
    match step {
        None => 0,
        Some(step) => {
            let row = rows[step.point as usize];
            let above = form.class_above(form.round_at(point), row.round, class);
            row.cell as u32 + (above - 1)
        }
    }
}

/// Adds for each class of a point the cell above it in which a step was made, or 0 if there is no step.
fn add_above(
    form: &Abstract,
    rows: &[PointRow],
    point: u32,
    step: Option<Step>,
    cells: &mut Vec<u32>,
) -> Result<(), AllocError>
    requires long_rows { length rows.now ≡ point_count (abstract_frame form.now) }
    requires rows { AreRowsBefore (abstract_frame form.now) (lists_of form.now) (point_count (abstract_frame form.now)) rows.now }
    requires point { point < point_count (abstract_frame form.now) }
    requires step { IsStepBefore (abstract_frame form.now) (option_map step_of step) point }
    requires long { length cells.old.items ≡ start_of (abstract_frame form.now) (lists_of form.now) point }
    ensures long { OnOk result (length cells.new.items ≡ start_of (abstract_frame form.now) (lists_of form.now) (point + 1)) }
    ensures above { (steps : ℕ → Option ModelStep) → steps point ≡ option_map step_of step
        → OnOk result (AreAbove (abstract_frame form.now) (lists_of form.now) steps cells.old.items
        → AreAbove (abstract_frame form.now) (lists_of form.now) steps cells.new.items) }
{
    for class in 1..form.class_total(form.round_at(point)) + 1 {
        cells.push(cell_above(form, rows, point, step, class))?;
    }
    Ok(())
}

/// Returns for each cell the cell above it in which its player took a step last, or 0 if there is none.
fn gates_of(alloc: Global, form: &Abstract, rows: &[PointRow]) -> Result<Vec<u32>, AllocError>
    requires long_rows { length rows.now ≡ point_count (abstract_frame form.now) }
    requires rows { AreRowsBefore (abstract_frame form.now) (lists_of form.now) (point_count (abstract_frame form.now)) rows.now }
    ensures { let f = abstract_frame form.now in
        IfOk result (λ v. HasAbove f (lists_of form.now) (λ q. last_step f (player_at f q) (at_point q)) v.items) }
{
    let mut gates = Vec::new(alloc);
    for point in 0..form.point_total() {
        add_above(form, rows, point, gate_of(form, point), &mut gates)?;
    }
    Ok(gates)
}

/// Notes a move at the point or end to which it leads.
fn lay_way(
    form: &Abstract,
    step: Step,
    to_points: &mut [Option<Step>],
    to_ends: &mut [Option<Step>],
)
    requires point { step.point < point_count (abstract_frame form.now) }
    requires choice { step.choice < move_count (abstract_frame form.now) step.point }
    requires points { length to_points.old ≡ point_count (abstract_frame form.now) }
    requires ends { length to_ends.old ≡ end_count (abstract_frame form.now) }
    ensures { IsMoveNoted step (leads_to (abstract_frame form.now) step.point step.choice) to_points.old to_ends.old to_points.new to_ends.new }
{
    match form.target_at(step.point, step.choice) {
        Target::Point(next) => to_points[next as usize] = Some(step),
        Target::End(end) => to_ends[end as usize] = Some(step),
    }
}

/// Notes each move of a point where it leads.
fn lay_ways(
    form: &Abstract,
    point: u32,
    to_points: &mut [Option<Step>],
    to_ends: &mut [Option<Step>],
)
    requires point { point < point_count (abstract_frame form.now) }
    requires points { length to_points.old ≡ point_count (abstract_frame form.now) }
    requires ends { length to_ends.old ≡ end_count (abstract_frame form.now) }
    requires ways { AreMovesNoted (abstract_frame form.now) point 0 to_points.old to_ends.old }
    ensures { AreMovesNoted (abstract_frame form.now) (point + 1) 0 to_points.new to_ends.new }
{
    for choice in 0..form.move_total(point) {
        lay_way(form, Step { point, choice }, to_points, to_ends);
    }
}

/// Notes each move where it leads.
fn lay_all(form: &Abstract, to_points: &mut [Option<Step>], to_ends: &mut [Option<Step>])
    requires points { length to_points.old ≡ point_count (abstract_frame form.now) }
    requires ends { length to_ends.old ≡ end_count (abstract_frame form.now) }
    requires none { AreMovesNoted (abstract_frame form.now) 0 0 to_points.old to_ends.old }
    ensures { AreMovesNoted (abstract_frame form.now) (point_count (abstract_frame form.now)) 0 to_points.new to_ends.new }
{
    for point in 0..form.point_total() {
        lay_ways(form, point, to_points, to_ends);
    }
}

/// Widens the span of a player's last point before an end, so that it has the end. `spans` have all ends before it.
fn widen(form: &Abstract, player: u8, end: u32, spans: &mut [Span])
    requires some { 0 < player }
    requires two { player ≤ 2 }
    requires end { end < end_count (abstract_frame form.now) }
    requires spans { AreSpans (abstract_frame form.now) end spans.old }
    ensures spans { AreSpans (abstract_frame form.now) end spans.new }
    ensures here { HasEnd (abstract_frame form.now) player end spans.new }
    ensures wider { AreWider spans.old spans.new }
{
    if let Some(step) = end_step(form.game(), player, end) {
        let span = &mut spans[step.point as usize];
        span.first = span.first.min(end);
        span.stop = span.stop.max(end + 1);
    }
}

/// Widens the spans so that they have all ends.
fn widen_all(form: &Abstract, spans: &mut [Span])
    requires none { AreSpans (abstract_frame form.now) 0 spans.old }
    ensures { AreSpans (abstract_frame form.now) (end_count (abstract_frame form.now)) spans.new }
{
    for end in 0..form.end_total() {
        widen(form, 1, end, spans);
        widen(form, 2, end, spans);
    }
}

impl Plot {
    ghost use Rattle.std.specs.Prelude.{IfOk};
    ghost use Rattle.gs_seq.specs.Abstracts.{abstract_frame, lists_of};
    ghost use Rattle.gs_play.specs.Plots.{IsPlot};

    /// Returns the plot of a game.
    pub(crate) fn of(alloc: Global, form: &Abstract) -> Result<Plot, AllocError>
        ensures { IfOk result (IsPlot (abstract_frame form.now) (lists_of form.now)) }
    {
        let points = form.point_total() as usize;
        let (rows, worths) = rows_of(alloc, form)?;
        let mut to_points = vec![in alloc; None; points]?;
        let mut to_ends = vec![in alloc; None; form.end_total() as usize]?;
        let mut spans = vec![in alloc; Span {
            first: u32::MAX,
            stop: 0
        }; points]?;
        lay_all(form, &mut to_points, &mut to_ends);
        widen_all(form, &mut spans);
        let cells = cells_of(alloc, form)?;
        let gates = gates_of(alloc, form, &rows)?;
        Ok(Plot {
            rows,
            worths,
            points: cells,
            to_points,
            to_ends,
            spans,
            gates,
        })
    }
}
