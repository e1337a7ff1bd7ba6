//! The decision whether the pairs of last-round classes are listed or made from deals.

ghost use Rattle.std.specs.Prelude.{◌≡◌, ◌<◌, ◌≤◌, IsTrue, length};
ghost use Rattle.gs_model.specs.Frame.{last_round};
ghost use Rattle.gs_seq.specs.{Games.{frame_in}, Rows.{IsSingleIn}};

use gs_filter::Classes;
use gs_tree::Signals;

/// The most pairs of last-round signals that are listed although they could be made from deals. A list is faster to read, but takes 16 bytes a pair.
const MOST_LISTED: u32 = 1_000_000;

/// Returns whether there are many deals and each is made at once: every kind of card has at most one copy, and each player gets one private card.
fn is_large(signals: &Signals) -> bool {
    signals.game().deal_count() > MOST_LISTED && signals.is_plain()
}

/// Returns whether each signal of a round is a class of its own, numbered in order.
fn is_single(classes: &Classes, round: u8) -> bool
    requires some { 0 < round }
    requires top { round ≤ length classes.now.lists }
    ensures { IsTrue result → IsSingleIn classes.now.lists round }
{
    for signal in 0..classes.signals(round) {
        if classes.class_of(round, signal) != signal + 1 {
            return false;
        }
    }
    true
}

/// Returns whether the pairs of last-round classes are made one by one from deals, because they are too many to list.
pub(crate) fn are_made(signals: &Signals, classes: &Classes) -> bool
    requires { classes.now.parents ≡ (frame_in signals.now.game.now).parents }
    ensures { IsTrue result → IsSingleIn classes.now.lists (last_round (frame_in signals.now.game.now)) }
{
    is_large(signals) && is_single(classes, signals.rounds())
}
