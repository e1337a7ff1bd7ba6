//! The turn at hand and the last one.

ghost use Rattle.std.specs.Prelude.{◌<◌, ◌≤◌};

/// The turn at hand, and the turn up to which turns are taken.
#[derive(Clone, Copy)]
pub(crate) struct Clock {
    pub(crate) turn: u32,
    pub(crate) last: u32,
    pub ghost order: { turn < last },
    pub ghost few: { last ≤ 1000001 },
}
