//! Rivals: the signals on a board as the other signals on it meet them, in the order in which sums list them.

ghost use Rattle.std.specs.{Prelude.{◌≡◌, ◌<◌, IfOk, IfSome, filter, get_or, length, map}, List.{All}, List.Sorted.{IsPermutation}};
ghost use Rattle.gs_tree.specs.{Boards.{signals_on}, Plain.{IsPlain}, Trees.{rules_of}, Walk.{last_count}};
ghost use Rattle.gs_lossless.specs.Boards.{PaysOnce};
ghost use Rattle.gs_lossless.specs.Rivals.{IsRivalTable, is_other, part_against as met, rival_of};
ghost use Rattle.gs_lossless.specs.declared.rivals.RivalTable.{RivalTable as Tabled};

use crate::parts::Part;
use gs_tree::Signals;
use std::alloc::{AllocError, Global};

/// 2^32, the number of possible strengths. A rival's rank is its class times this, plus how much its strength falls short of the greatest.
const STRENGTHS: u64 = 4294967296;

/// A last-round signal as the other signals on its board meet it: its key, and the strength of its hand.
#[derive(Clone, Copy)]
pub(crate) struct Rival {
    pub(crate) class: u32,
    pub(crate) strength: u32,
    pub(crate) signal: u32,
}

/// The rivals on the board of the signal `first`.
#[derive(Drop)]
pub(crate) struct RivalTable {
    pub(crate) first: u32,
    pub(crate) rivals: Vec<Rival>,
}

impl Rival {
    ghost use Rattle.std.specs.Prelude.{◌≡◌, ◌-◌, ◌+◌, ◌*◌};

    // Returns the key and the weakness as one number, so that rivals are compared in one step.
    fn rank(self) -> u64
        ensures { result ≡ self.class * 4294967296 + (4294967295 - self.strength) }
    {
        u64::from(self.class) * STRENGTHS + u64::from(u32::MAX - self.strength)
    }
}

/// Returns the rivals on the board of `first`, in the order of the signals.
fn rivals_beside(
    alloc: Global,
    signals: &Signals,
    keys: &[u32],
    first: u32,
) -> Result<Vec<Rival>, AllocError>
    requires first_in { first < last_count (rules_of signals.now) }
    requires keys { length keys.now ≡ last_count (rules_of signals.now) }
    ensures { IfOk result (λ v. v.items ≡ map (rival_of (rules_of signals.now) keys.now) (signals_on (rules_of signals.now) first)) }
{
    let (firsts, nexts) = signals.boards();
    let strengths = signals.strengths();
    let kinds = signals.game().game().deck.counts().len();
    let mut rivals = Vec::with_capacity(alloc, kinds)?;
    let mut signal = firsts[first as usize];
    while (signal as usize) < nexts.len() {
        rivals.push(Rival {
            class: keys[signal as usize],
            strength: strengths[signal as usize],
            signal,
        })?;
        signal = nexts[signal as usize];
    }
    Ok(rivals)
}

/// Sorts rivals by key, those of one key by strength, the strongest first. Sums list what a signal meets in this order.
fn sort_rivals(rivals: &mut Vec<Rival>)
    ensures { IsPermutation rivals.old.items rivals.new.items }
{
    rivals.sort_unstable_by_key(|rival| rival.rank());
}

/// Returns the table of the board of `first`.
fn table_at(
    alloc: Global,
    signals: &Signals,
    keys: &[u32],
    first: u32,
) -> Result<RivalTable, AllocError>
    requires first_in { first < last_count (rules_of signals.now) }
    requires keys { length keys.now ≡ last_count (rules_of signals.now) }
    requires plain { IsPlain (rules_of signals.now) }
    requires once { PaysOnce (rules_of signals.now) }
    ensures { IfOk result (IsRivalTable (rules_of signals.now) keys.now) }
{
    let mut rivals = rivals_beside(alloc, signals, keys, first)?;
    sort_rivals(&mut rivals);
    Ok(RivalTable { first, rivals })
}

/// Returns the tables of all boards, in the order of their first signals.
pub(crate) fn tables_of(
    alloc: Global,
    signals: &Signals,
    keys: &[u32],
) -> Result<Vec<RivalTable>, AllocError>
    requires keys { length keys.now ≡ last_count (rules_of signals.now) }
    requires plain { IsPlain (rules_of signals.now) }
    requires once { PaysOnce (rules_of signals.now) }
    ensures { IfOk result (λ v. All (IsRivalTable (rules_of signals.now) keys.now) v.items) }
{
    let (firsts, _) = signals.boards();
    let mut tables = Vec::new(alloc);
    for (signal, first) in firsts.iter().enumerate() {
        if *first as usize == signal {
            let table = table_at(alloc, signals, keys, *first)?;
            tables.push(table)?;
        }
    }
    Ok(tables)
}

/// Returns the place of the table of the board of `first`. The tables are in the order of their first signals.
pub(crate) fn place_of(tables: &[RivalTable], first: u32) -> Option<usize>
    ensures { IfSome result (λ place. (place < length tables.now) × ((d : Tabled) → (get_or tables.now place d).first ≡ first)) }
{
    let place = tables
        .binary_search_by_key(&first, |table| table.first)
        .ok()?;
    if tables[place].first == first {
        Some(place)
    } else {
        None
    }
}

/// Returns what a signal of this strength meets in a rival, where each bonus is 1.
fn part_against(strength: u32, rival: Rival) -> Part
    ensures { result ≡ met strength rival }
{
    let outcome = if rival.strength < strength {
        1
    } else if strength < rival.strength {
        -1
    } else {
        0
    };
    Part {
        class: rival.class,
        outcome,
        weight: 1,
    }
}

/// Returns what a signal of this strength meets in all rivals but itself.
pub(crate) fn parts_against(
    alloc: Global,
    rivals: &[Rival],
    strength: u32,
    signal: u32,
) -> Result<Vec<Part>, AllocError>
    ensures { IfOk result (λ v. v.items ≡ map (met strength) (filter (is_other signal) rivals.now)) }
{
    let mut parts = Vec::with_capacity(alloc, rivals.len())?;
    for rival in rivals {
        if rival.signal != signal {
            parts.push(part_against(strength, *rival))?;
        }
    }
    Ok(parts)
}
