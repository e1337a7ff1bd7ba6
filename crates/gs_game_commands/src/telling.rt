//! The texts of classes.

ghost use Rattle.std.specs.Prelude.{◌≡◌, IfOk};
ghost use Rattle.gs_tree.specs.Trees.{rules_of, deck_of};
ghost use Rattle.gs_text.specs.ClassText.{AreListsOf};
ghost use Rattle.gs_game_commands.specs.Shrinking.{told as text_of};

use gs_filter::Classes;
use gs_text::{class_text, summary_text};
use gs_tree::Signals;
use std::alloc::{AllocError, Global};

/// Returns the text of classes, or their summary.
pub(crate) fn told(
    alloc: Global,
    signals: &Signals,
    classes: &Classes,
    summary: bool,
) -> Result<Vec<u8>, AllocError>
    requires { AreListsOf (rules_of signals.now) classes.now.lists }
    ensures { IfOk result (λ text. text.items ≡ text_of summary (deck_of signals.now) (rules_of signals.now) classes.now.lists) }
{
    if summary {
        Ok(summary_text(alloc, signals, classes)?.into_bytes())
    } else {
        Ok(class_text(alloc, signals, classes)?.into_bytes())
    }
}
