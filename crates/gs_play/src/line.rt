//! Numbers that move on straight lines from turn to turn.

ghost use Rattle.std.specs.Prelude.{◌≡◌, ◌+◌, ◌<◌, ◌≤◌, ◌^◌, ◌+ℤ◌, ◌-ℤ◌, ◌*ℤ◌, neg_ℤ, pos};
ghost use Rattle.gs_play.specs.Lasting.{IsNotAhead};
ghost use Rattle.gs_play.specs.Lines.{StaysBehind, value_in, wrapped};

use crate::lasting::behind;
use gs_seq::{plus, scaled};

/// A number that in each turn is `at` plus `slope` times the turn. A sum of lines wraps around at 64 bits: where it is small, it is exact.
/// A line is read only where it is settled, and is small there.
#[derive(Clone, Copy, PartialEq)]
pub(crate) struct Line {
    pub(crate) at: i64,
    pub(crate) slope: i64,
}

/// Returns the sum of two lines.
pub(crate) fn sum(first: Line, second: Line) -> Line
    ensures at { result.at ≡ wrapped (first.at +ℤ second.at) }
    ensures slope { result.slope ≡ wrapped (first.slope +ℤ second.slope) }
{
    Line {
        at: first.at.wrapping_add(second.at),
        slope: first.slope.wrapping_add(second.slope),
    }
}

/// Returns what a line is above another.
pub(crate) fn above(first: Line, second: Line) -> Line
    ensures at { result.at ≡ wrapped (first.at -ℤ second.at) }
    ensures slope { result.slope ≡ wrapped (first.slope -ℤ second.slope) }
{
    Line {
        at: first.at.wrapping_sub(second.at),
        slope: first.slope.wrapping_sub(second.slope),
    }
}

/// Returns what `more` in each turn comes to in some turns. It wraps around at 64 bits.
fn times(more: i64, turns: u32) -> i64
    ensures { result ≡ wrapped (more *ℤ pos turns) }
{
    more.wrapping_mul(i64::from(turns))
}

/// Returns a number negated. It wraps around at 64 bits.
fn negated(number: i64) -> i64
    ensures { result ≡ wrapped (neg_ℤ number) }
{
    number.wrapping_neg()
}

/// Returns the line that is 0 in a turn and rises by `more` in each turn.
pub(crate) fn rising(more: i64, turn: u32) -> Line
    ensures at { result.at ≡ wrapped (pos 0 -ℤ more *ℤ pos turn) }
    ensures slope { result.slope ≡ more }
{
    Line {
        at: negated(times(more, turn)),
        slope: more,
    }
}

/// Returns what a line is in a turn.
pub(crate) fn value(line: Line, turn: u32) -> i128
    requires { turn ≤ 2 ^ 20 }
    ensures { result ≡ value_in line turn }
{
    let at = i128::from(line.at);
    let slope = i128::from(line.slope);
    plus(at, scaled(u64::from(turn), slope))
}

/// Returns the last turn, at most `last`, up to which a line that is behind in the turn `now` does not overtake one that is ahead.
/// It has to be the greatest such turn: a weaker clause lets through a body that takes each turn by itself.
pub(crate) fn until(before: bool, ahead: Line, other: Line, now: u32, last: u32) -> u32
    requires order { now ≤ last }
    requires few { last ≤ 2 ^ 20 }
    requires behind { IsNotAhead before (value_in ahead now) (value_in other now) }
    ensures stays { StaysBehind before ahead other now result }
    ensures greatest { result < last → StaysBehind before ahead other now (result + 1) → ⊥ }
    ensures some { now < last → now < result }
    ensures most { result ≤ last }
    ensures least { now ≤ result }
{
    let slope = i128::from(ahead.slope);
    let rise = i128::from(other.slope);
    let turns = behind(
        before,
        value(ahead, now),
        value(other, now),
        slope,
        rise,
        last - now,
    );
    now + turns
}
