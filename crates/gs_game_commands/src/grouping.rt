//! The classes of a grouping.

ghost use Rattle.std.specs.Prelude.{◌≡◌, IfErr, IfOk};
ghost use Rattle.gs_file.specs.Views.{valid_view};
ghost use Rattle.gs_game_commands.specs.Checking.{IsGrouping, SaysNotLossless};
ghost use Rattle.gs_model.specs.{Frame.{frame_of}, Lossless.{IsLossless}};
ghost use Rattle.gs_reply.specs.Replies.{StopsFor};
ghost use Rattle.gs_tree.specs.Trees.{rules_of};
ghost use Rattle.gs_words.specs.declared.request.Grouping.TheVariants.{Coarsest};

use gs_filter::Classes;
use gs_lossless::Lossless;
use gs_reply::{Stop, lossless_classes};
use gs_split::split;
use gs_tree::Signals;
use gs_words::Grouping;
use std::alloc::{AllocError, Global};

// Returns the coarsest lossless classes that refine those of ordered game isomorphism.
fn coarsest(alloc: Global, signals: &Signals) -> Result<Classes, AllocError>
    ensures grouping { IfOk result (λ c. IsGrouping Coarsest (rules_of signals.now) c.lists) }
    ensures parents { IfOk result (λ c. c.parents ≡ (frame_of (rules_of signals.now)).parents) }
{
    let classes = gs_iso::shrink(alloc, signals)?;
    split(alloc, signals, &classes)
}

/// Returns the classes of a grouping.
pub(crate) fn classes_of(
    alloc: Global,
    signals: &Signals,
    grouping: Grouping,
) -> Result<Classes, AllocError>
    ensures grouping { IfOk result (λ c. IsGrouping grouping (rules_of signals.now) c.lists) }
    ensures parents { IfOk result (λ c. c.parents ≡ (frame_of (rules_of signals.now)).parents) }
{
    match grouping {
        Grouping::Isomorphism => gs_iso::shrink(alloc, signals),
        Grouping::Coarsest => coarsest(alloc, signals),
        Grouping::Single => Classes::identity(alloc, signals.parents()),
    }
}

/// Returns the classes of a grouping as lossless ones, or the refusal with their first unlike pair. Only signal classes are compared: the others are known
/// to be lossless.
pub(crate) fn lossless_of<'a>(
    alloc: Global,
    signals: &'a Signals<'a>,
    classes: &'a Classes,
    grouping: Grouping,
) -> Result<Lossless<'a>, Stop>
    requires parents { classes.now.parents ≡ (frame_of (rules_of signals.now)).parents }
    requires grouping { IsGrouping grouping (rules_of signals.now) classes.now.lists }
    ensures held_signals { IfOk result (λ l. l.signals.now ≡ signals.entry.now) }
    ensures held_classes { IfOk result (λ l. l.classes.now ≡ classes.entry.now) }
    ensures lossless { IfOk result (λ _. IsLossless (frame_of (rules_of signals.entry.now)) classes.entry.now.lists) }
    ensures unlike { IfErr result (StopsFor (SaysNotLossless grouping (valid_view signals.entry.now.game.now))) }
{
    match grouping {
        Grouping::Isomorphism => lossless_classes(alloc, signals, classes),
        Grouping::Coarsest | Grouping::Single => Ok(Lossless::known(signals, classes)),
    }
}
