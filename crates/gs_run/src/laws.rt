//! Laws of runs, and of what all commands say: each input has one reply, and what is printed is confirmed.

ghost use Rattle.std.specs.{Prelude.{◌≡◌, ◌++◌, ℕ, List, codes}, Fmt.{decimal}};
ghost use Rattle.gs_run.specs.{Deciding.{OneReply}, Running.{Ends, RunsTo, long_line, most_bytes}, declared.status.Status.{Status as RunStatus}};
ghost use Rattle.gs_run.specs.Answers.{AnswersAreOne, PlaysAreOne, SignalClassesAreOne, SolutionsAreOne};
ghost use Rattle.gs_run.specs.Confirming.{ConfirmedAreEvaluated, ConfirmedHaveNoTrouble, PrintedAreEvaluated};

/// The line that refuses a too long input states the limit in bytes.
pub fn length_limit_is_told()
    ensures { long_line ≡ codes "input longer than " ++ decimal most_bytes ++ codes " bytes\n" }
{}

/// Two runs over the same words and bytes give the same reply, if no read or write fails and memory does not run out.
pub fn runs_are_one()
    ensures { (words : List (List ℕ)) (old new : Ends) (s : RunStatus) (before after : Ends) (t : RunStatus) → RunsTo words old new s
        → RunsTo words before after t → OneReply words old new s before after t }
{}

/// A confirmed strategy passes each check of `evaluate`.
pub fn confirmed_have_no_trouble()
    ensures { ConfirmedHaveNoTrouble }
{}

/// For the text of a confirmed strategy `evaluate` prints its three numbers.
pub fn confirmed_are_evaluated()
    ensures { ConfirmedAreEvaluated }
{}

/// For what `solve` and `play` print `evaluate` prints the three numbers.
pub fn printed_are_evaluated()
    ensures { PrintedAreEvaluated }
{}

/// A game has only one list of signal classes.
pub fn signal_classes_are_one()
    ensures { SignalClassesAreOne }
{}

/// After a number of turns of play each player has only one plan.
pub fn plays_are_one()
    ensures { PlaysAreOne }
{}

/// A game over classes has only one solution.
pub fn solutions_are_one()
    ensures { SolutionsAreOne }
{}

/// A task has only one reply to an input.
pub fn answers_are_one()
    ensures { AnswersAreOne }
{}
