//! Laws of dealing, and of the rules of a game.

ghost use Rattle.gs_game.specs.{GoingOn.{RoundsGoOn, SomeGoOn}, Rules.{RulesAreRefusals}};

/// After a round all pairs of signals go on in equally many ways. What a signal weighs is what it weighs in the game that stops there, times these ways.
pub fn rounds_go_on()
    ensures alike { RoundsGoOn }
    ensures some { SomeGoOn }
{}

/// No refusal applies to a game if and only if it keeps the eleven rules.
pub fn rules_are_refusals()
    ensures { RulesAreRefusals }
{}
