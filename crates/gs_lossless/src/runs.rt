//! Ancestors and descendants of signals. The descendants of a signal in a round stand at a run of places.

ghost use Rattle.std.specs.Prelude.{◌≡◌, ◌+◌, ◌<◌, ◌≤◌, length};
ghost use Rattle.gs_model.specs.{Frame.{at_round, frame_of}, Game.{round_count}, Signals.{first_child, signals as signals_in}};
ghost use Rattle.gs_tree.specs.{Trees.{rules_of}, Walk.{last_count}};
ghost use Rattle.gs_lossless.specs.Amounts.{IsRun, IsRunIn};

use gs_tree::Signals;

/// A run of signals of a round: the places from `first` up to but not including `end`.
#[derive(Clone, Copy)]
pub struct Run {
    pub first: u32,
    pub end: u32,
}

/// Returns the ancestor in a round of a last-round signal.
pub fn ancestor(signals: &Signals, round: u8, signal: u32) -> u32
    requires some { 0 < round }
    requires last { round ≤ round_count (rules_of signals.now) }
    requires in_range { signal < last_count (rules_of signals.now) }
    ensures value { result ≡ at_round (frame_of (rules_of signals.now)) round signal }
    ensures within { result < length (signals_in (rules_of signals.now) round) }
{
    let mut at = signals.rounds();
    let mut place = signal;
    while round < at {
        place = signals.parents_in(at)[place as usize];
        at -= 1;
    }
    place
}

/// Returns the place of the first signal of the next round whose parent is at this place or later.
fn first_below(signals: &Signals, round: u8, place: u32) -> u32
    requires some { 0 < round }
    requires before_last { round < round_count (rules_of signals.now) }
    requires in_range { place ≤ length (signals_in (rules_of signals.now) round) }
    ensures { result ≡ first_child (rules_of signals.now) round place }
{
    if place < signals.count(round) {
        signals.children(round, place).0
    } else {
        signals.count(round + 1)
    }
}

/// Returns the descendants of a signal in the round `to`. In its own round a signal is its only descendant.
pub fn descendants_in(signals: &Signals, round: u8, signal: u32, to: u8) -> Run
    requires some { 0 < round }
    requires onward { round ≤ to }
    requires top { to ≤ round_count (rules_of signals.now) }
    requires in_range { signal < length (signals_in (rules_of signals.now) round) }
    ensures { IsRunIn (frame_of (rules_of signals.now)) to round signal result.first result.end }
{
    let mut first = signal;
    let mut end = signal + 1;
    for at in round..to {
        first = first_below(signals, at, first);
        end = first_below(signals, at, end);
    }
    Run { first, end }
}

/// Returns the last-round signals that descend from a signal.
pub fn descendants(signals: &Signals, round: u8, signal: u32) -> Run
    requires some { 0 < round }
    requires last { round ≤ round_count (rules_of signals.now) }
    requires in_range { signal < length (signals_in (rules_of signals.now) round) }
    ensures { IsRun (frame_of (rules_of signals.now)) round signal result.first result.end }
{
    descendants_in(signals, round, signal, signals.rounds())
}
