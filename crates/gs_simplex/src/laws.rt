//! Laws of rows and of Bland's path. No code runs.

ghost use Rattle.gs_simplex.specs.Laws.{EndIsFeasible, PricesHaveMultipliers, AimHasNoBound};
ghost use Rattle.gs_simplex.specs.PathLaws.{RowsAreDetermined, TakenInTurnIsRegular, TakenInTurnHasRows, PivotKeepsRegular, LastNumberIsValue, StopsAreOne};
ghost use Rattle.gs_simplex.specs.PathLaws.{BasesDiffer};

/// At the end of the path the values satisfy the program's rows, a column that is not free is at least 0, and no price is negative.
pub fn the_end_is_feasible()
    ensures { EndIsFeasible }
{}

/// Multipliers, one for each program row, give every price and the aim's value.
pub fn prices_have_multipliers()
    ensures { PricesHaveMultipliers }
{}

/// If the path is unbounded, so is the program: its feasible solutions have an aim above every whole number.
pub fn the_aim_has_no_bound()
    ensures { AimHasNoBound }
{}

/// A regular list and the program determine the rows.
pub fn rows_are_determined()
    ensures { RowsAreDetermined }
{}

/// A list whose pairs can be taken in turn has different rows and different columns, and is regular.
pub fn taken_in_turn_is_regular()
    ensures { TakenInTurnIsRegular }
{}

/// A list whose pairs can be taken in turn has rows.
pub fn taken_in_turn_has_rows()
    ensures { TakenInTurnHasRows }
{}

/// A pivot keeps a list regular.
pub fn a_pivot_keeps_regular()
    ensures { PivotKeepsRegular }
{}

/// The last number of the aim's row is its multiple times the aim's value at a solution whose unlisted columns are 0.
pub fn the_last_number_is_the_value()
    ensures { LastNumberIsValue }
{}

/// A path stops in one way only: at one step, with one answer.
pub fn stops_are_one()
    ensures { StopsAreOne }
{}

/// No basis comes twice, so Bland's rule never cycles.
pub fn bases_differ()
    ensures { BasesDiffer }
{}
