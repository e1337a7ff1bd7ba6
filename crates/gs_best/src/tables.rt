//! Room for class totals.

ghost use Rattle.std.specs.Prelude.{◌≡◌, ◌≤◌, ℕ, IfOk, length, slice_index};
ghost use Rattle.gs_model.specs.Frame.{last_round, point_count};
ghost use Rattle.gs_seq.specs.Abstracts.{abstract_frame, lists_of};
ghost use Rattle.gs_best.specs.{Rooms.{HasRows, HoldsAll, IsLaid, IsWide, IsWideTo}, Tables.{AreStarts, start_of}};

use gs_seq::Abstract;
use std::alloc::{AllocError, Global};

/// A class total for each point and class of its round, and at a player's own points the first best move.
///
/// A point's numbers stand side by side, one for each class, from the point's start on.
#[derive(Drop)]
pub struct Table {
    pub starts: Vec<u32>,
    pub totals: Vec<i128>,
    pub picks: Vec<u8>,
}

/// Scratch rows, with an entry for each class of any round; `worths` has one for each class of any round before the last.
#[derive(Drop)]
pub struct Scratch {
    // the other player's numbers at an end
    pub numbers: Vec<u64>,
    // what an end pays
    pub ends: Vec<i128>,
    // what a move is worth that leads to a later round
    pub worths: Vec<i128>,
}

/// Writes for each point the place where its values start.
pub fn place_points(form: &Abstract, starts: &mut [u32])
    requires { point_count (abstract_frame form.now) ≤ length starts.old }
    ensures starts { AreStarts (abstract_frame form.now) (lists_of form.now) starts.new }
    ensures behind { (i : ℕ) → point_count (abstract_frame form.now) ≤ i → slice_index starts.new i ≡ slice_index starts.old i }
{
    let mut start = 0;
    for point in 0..form.point_total() {
        starts[point as usize] = start;
        start += form.class_total(form.round_at(point));
    }
}

/// Writes into a table the place where each point's totals start.
pub fn lay_out(form: &Abstract, table: &mut Table)
    requires { HoldsAll (abstract_frame form.now) (lists_of form.now) table.old }
    ensures { IsLaid (abstract_frame form.now) (lists_of form.now) table.new }
{
    place_points(form, &mut table.starts);
}

/// Returns the number of values: one for each point and each class of its round.
pub fn value_total(form: &Abstract) -> u32
    ensures { result ≡ start_of (abstract_frame form.now) (lists_of form.now) (point_count (abstract_frame form.now)) }
{
    let mut total = 0;
    for point in 0..form.point_total() {
        total += form.class_total(form.round_at(point));
    }
    total
}

/// Returns the greatest number of classes of any of the first `rounds` rounds.
fn widest_to(form: &Abstract, rounds: u8) -> u32
    requires { rounds ≤ last_round (abstract_frame form.now) }
    ensures wide { IsWideTo rounds (lists_of form.now) result }
    ensures least { (n : ℕ) → IsWideTo rounds (lists_of form.now) n → result ≤ n }
{
    let mut most = 0;
    for before in 0..rounds {
        most = form.class_total(before + 1).max(most);
    }
    most
}

/// Returns the greatest number of classes of any round.
pub fn widest(form: &Abstract) -> u32
    ensures wide { IsWide (abstract_frame form.now) (lists_of form.now) result }
    ensures least { (n : ℕ) → IsWide (abstract_frame form.now) (lists_of form.now) n → result ≤ n }
{
    widest_to(form, form.round_total())
}

/// Returns a table with room for the class totals of a game, and with the place where each point's numbers start.
fn table_for(alloc: Global, form: &Abstract) -> Result<Table, AllocError>
    ensures { IfOk result (IsLaid (abstract_frame form.now) (lists_of form.now)) }
{
    let points = form.point_total() as usize;
    let values = value_total(form) as usize;
    let mut table = Table {
        starts: vec![in alloc; 0u32; points]?,
        totals: vec![in alloc; 0i128; values]?,
        picks: vec![in alloc; 0u8; values]?,
    };
    lay_out(form, &mut table);
    Ok(table)
}

/// Returns scratch rows with an entry for each class of any round, and one of worths for the rounds before the last.
fn scratch_for(alloc: Global, form: &Abstract) -> Result<Scratch, AllocError>
    ensures { IfOk result (HasRows (abstract_frame form.now) (lists_of form.now)) }
{
    let wide = widest(form) as usize;
    let earlier = widest_to(form, form.round_total() - 1) as usize;
    Ok(Scratch {
        numbers: vec![in alloc; 0u64; wide]?,
        ends: vec![in alloc; 0i128; wide]?,
        worths: vec![in alloc; 0i128; earlier]?,
    })
}

/// Returns a table and scratch rows for the class totals of a game.
pub fn room_for(alloc: Global, form: &Abstract) -> Result<(Table, Scratch), AllocError>
    ensures laid { IfOk result (λ r. IsLaid (abstract_frame form.now) (lists_of form.now) r.0) }
    ensures rows { IfOk result (λ r. HasRows (abstract_frame form.now) (lists_of form.now) r.1) }
{
    let table = table_for(alloc, form)?;
    let scratch = scratch_for(alloc, form)?;
    Ok((table, scratch))
}
