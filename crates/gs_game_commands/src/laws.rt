//! Laws of the refusals, and of what is printed.

ghost use Rattle.std.specs.{Prelude.{◌≡◌, ◌++◌, codes}, Fmt.{decimal}};
ghost use Rattle.gs_reply.specs.Refusals.{Many_pivots, line_of};
ghost use Rattle.gs_game_commands.specs.Printed.{PrintedAreRaw, PrintedAreStrategies};
ghost use Rattle.gs_solve.specs.Solutions.{most_pivots};

/// The line that refuses a path with too many pivots states the limit.
pub fn pivot_limit_is_told()
    ensures { line_of Many_pivots ≡ codes "more than " ++ decimal most_pivots ++ codes " pivots\n" }
{}

/// A strategy whose text is printed for an accepted game can be written in version 2.
pub fn printed_are_strategies()
    ensures { PrintedAreStrategies }
{}

/// The plans of a strategy that is printed for an accepted game stand for raw plans.
pub fn printed_are_raw()
    ensures { PrintedAreRaw }
{}
