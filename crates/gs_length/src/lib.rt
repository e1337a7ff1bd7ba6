//! Laws that nothing stands on: how long the text of a strategy is, and that `evaluate` takes what `solve`, `play` and `upgrade` print.
//!
//! The crate runs nothing: a function here is a law, and its contract is the statement.
#![tactic(auto)]

ghost use Rattle.std.specs.Prelude.{◌≤◌, length};
ghost use Rattle.gs_length.specs.Length.{EvaluatesWell, OfPrinted, TextsFitInputs};
ghost use Rattle.gs_run.specs.Running.{most_bytes};

/// The text of a strategy whose game over its classes keeps the limits is no longer than an input may be.
pub fn texts_fit_inputs()
    ensures { TextsFitInputs }
{}

/// What `solve`, `play` and `upgrade` print is no longer than an input may be.
pub fn printed_fit_inputs()
    ensures { OfPrinted (λ text. length text ≤ most_bytes) }
{}

/// What `solve`, `play` and `upgrade` print is never refused by `evaluate`, which ends well or out of memory.
pub fn printed_evaluate_well()
    ensures { OfPrinted EvaluatesWell }
{}
