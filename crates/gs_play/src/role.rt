//! A player of a game, and where the player's numbers stand.

ghost use Rattle.std.specs.Prelude.{◌<◌, ◌≤◌};
ghost use Rattle.gs_seq.specs.Abstracts.{abstract_frame, lists_of};
ghost use Rattle.gs_play.specs.Plots.{IsPlot};

use crate::plot::Plot;
use gs_seq::Abstract;

/// A player of a game, and the plot of the game.
#[derive(Clone, Copy)]
pub(crate) struct Role<'a> {
    pub(crate) form: &'a Abstract<'a>,
    pub(crate) player: u8,
    pub(crate) plot: &'a Plot,
    pub ghost some: { 0 < player },
    pub ghost two: { player ≤ 2 },
    pub ghost plotted: { IsPlot (abstract_frame form.now) (lists_of form.now) plot.now },
}
