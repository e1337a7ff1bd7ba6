//! The answer of `check` for the classes of a grouping.

ghost use Rattle.std.specs.Prelude.{◌≡◌};
ghost use Rattle.gs_file.specs.Views.{valid_view};
ghost use Rattle.gs_game_commands.specs.Checking.{ChecksGame, IsGrouping};
ghost use Rattle.gs_model.specs.Frame.{frame_of};
ghost use Rattle.gs_reply.specs.Replies.{Answers};
ghost use Rattle.gs_tree.specs.Trees.{rules_of};

use crate::grouping::lossless_of;
use crate::telling::told;
use gs_filter::Classes;
use gs_reply::Stop;
use gs_tree::Signals;
use gs_words::Grouping;
use std::alloc::Global;

/// Returns the text or the summary of the classes of a grouping, if they are lossless; or the refusal.
pub(crate) fn listed(
    alloc: Global,
    signals: &Signals,
    classes: &Classes,
    grouping: Grouping,
    summary: bool,
) -> Result<Vec<u8>, Stop>
    requires parents { classes.now.parents ≡ (frame_of (rules_of signals.now)).parents }
    requires grouping { IsGrouping grouping (rules_of signals.now) classes.now.lists }
    ensures { Answers (ChecksGame grouping summary (valid_view signals.now.game.now)) result }
{
    lossless_of(alloc, signals, classes, grouping)?;
    Ok(told(alloc, signals, classes, summary)?)
}
