//! Laws of games on raw cards.

ghost use Rattle.gs_raw_commands.specs.RawGames.{HandsWeighSome, RawGamesAreWithin, RawSequencesAreFew};

/// Each raw signal of round 1 is dealt.
pub fn hands_weigh_some()
    ensures { HandsWeighSome }
{}

/// Over single signals a player has at most 64 sequences per raw cell, and the empty one.
pub fn raw_sequences_are_few()
    ensures { RawSequencesAreFew }
{}

/// A game with at most 16,777,216 raw cells keeps the limit on sequences over single signals.
pub fn raw_games_are_within()
    ensures { RawGamesAreWithin }
{}
