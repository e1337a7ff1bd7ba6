//! The first greatest of some lines, and up to which turn it stays that.

ghost use Rattle.std.specs.Prelude.{◌+◌, ◌<◌, ◌≤◌, ◌^◌, length};
ghost use Rattle.gs_play.specs.Lines.{IsFirstIn, StaysFirst};

use crate::line::{Line, until, value};

/// Returns the place of the first greatest line in the turn `now`.
pub(crate) fn first_greatest(lines: &[Line], now: u32) -> usize
    requires some { 0 < length lines.now }
    requires few { now ≤ 2 ^ 20 }
    ensures { IsFirstIn lines.now result now }
{
    let mut best = 0;
    let mut most = value(lines[0], now);
    for place in 1..lines.len() {
        let worth = value(lines[place], now);
        if most < worth {
            best = place;
            most = worth;
        }
    }
    best
}

/// Returns the greatest turn, at most `last`, up to which the first greatest line of the turn `now` stays the first greatest one.
pub(crate) fn first_until(lines: &[Line], best: usize, now: u32, last: u32) -> u32
    requires few { last ≤ 2 ^ 20 }
    requires order { now ≤ last }
    requires first { IsFirstIn lines.now best now }
    ensures stays { StaysFirst lines.now best now result }
    ensures greatest { result < last → StaysFirst lines.now best now (result + 1) → ⊥ }
    ensures some { now < last → now < result }
    ensures most { result ≤ last }
{
    let mut left = last;
    for place in 0..lines.len() {
        if place != best {
            left = until(place < best, lines[best], lines[place], now, left);
        }
    }
    left
}
