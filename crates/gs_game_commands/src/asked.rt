//! What is asked of a game over classes.

ghost use Rattle.std.specs.Prelude.{◌≤◌};

/// A number of turns of play.
#[derive(Clone, Copy)]
pub(crate) struct Turns {
    pub count: u32,
    pub ghost few: { count ≤ 1000000 },
}

/// What is asked of a game over classes.
#[derive(Drop)]
pub(crate) enum Asked {
    /// The strategy after a number of turns of fictitious play.
    Play(Turns),
    /// A strategy whose gaps are both 0.
    Solve,
    /// The path on which that strategy is found.
    Path,
}

/// What is asked of a game and the classes of a grouping.
#[derive(Drop)]
pub(crate) enum Question {
    /// The text of the classes, or their summary.
    Classes { summary: bool },
    /// What is asked of the game over the classes.
    Over(Asked),
}
