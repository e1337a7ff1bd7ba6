//! Signals with their classes.

ghost use Rattle.std.specs.Prelude.{◌≡◌};
ghost use Rattle.gs_model.specs.Frame.{frame_of};
ghost use Rattle.gs_tree.specs.Trees.{rules_of};

use gs_filter::Classes;
use gs_tree::Signals;

/// Signals, and classes over their parents.
#[derive(Clone, Copy)]
pub struct Grouped<'a> {
    pub signals: &'a Signals<'a>,
    pub classes: &'a Classes,
    ghost parents: { classes.now.parents ≡ (frame_of (rules_of signals.now)).parents },
}
