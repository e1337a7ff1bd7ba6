//! Questions that tests ask about the signals of sample games.

use gs_samples::game_of;
use gs_tree::Signals;
use std::alloc::Global;
use std::test::Fail;

/// A question about the signals of a game.
pub(crate) trait Question {
    type Answer: Drop;

    /// Returns the answer.
    fn answer(&self, alloc: Global, signals: &Signals<'_>) -> Result<Self::Answer, Fail>;
}

/// Returns the answer to a question about the signals of the game of a line.
pub(crate) fn asked<Q: Question>(
    alloc: Global,
    line: &str,
    question: &Q,
) -> Result<Q::Answer, Fail> {
    let game = game_of(alloc, line)?;
    let signals = Signals::of(alloc, &game)?;
    question.answer(alloc, &signals)
}
