//! Why a line and a signal's text name no spot of a player.

use thiserror::Error;

/// The first rule that a line and a signal's text break.
#[derive(Clone, Copy, Debug, Error)]
pub enum QueryFault {
    /// No point has this line.
    #[error("line")]
    Line,
    /// The point is the other player's.
    #[error("player")]
    Player,
    /// No raw signal of any round has this text.
    #[error("signal")]
    Signal,
    /// A raw signal has this text, but none of the point's round does.
    #[error("round")]
    Round,
}
