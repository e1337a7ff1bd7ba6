//! The command `solve`.

ghost use Rattle.gs_reply.specs.Replies.{Answers, StopsFor, Tells};
ghost use Rattle.gs_seq.specs.{Abstracts.{abstract_frame, lists_of}, Stops.{IsSmall}};
ghost use Rattle.gs_game_commands.specs.{Settling.{file_game_in}, Solving.{Solves}};
ghost use Rattle.gs_solve.specs.Solutions.{IsSolveError, IsSolveFault};

use crate::paths::unended;
use crate::writing::text_of;
use gs_reply::{Overflow, Refusal, Stop};
use gs_seq::Abstract;
use gs_solve::{SolveError, SolveFault, solve};
use std::alloc::Global;

// Returns the refusal of a game whose program has no solution here.
fn unsolved(form: &Abstract, fault: SolveFault) -> Refusal
    requires { IsSolveFault (abstract_frame form.now) (lists_of form.now) fault }
    ensures { Tells (Solves (file_game_in form.now) (lists_of form.now)) result }
{
    match fault {
        SolveFault::Path(fault) => unended(form, fault),
        SolveFault::Total { player, multiple } => {
            Refusal::Overflows(Overflow::AtTotal { player, multiple })
        }
    }
}

// Returns why a game is not solved: memory ran out, or its program has no solution here.
fn stopped(form: &Abstract, error: SolveError) -> Stop
    requires { IsSolveError (abstract_frame form.now) (lists_of form.now) error }
    ensures { StopsFor (Solves (file_game_in form.now) (lists_of form.now)) result }
{
    match error {
        SolveError::Memory => Stop::Memory,
        SolveError::Fault(fault) => Stop::Refused(unsolved(form, fault)),
    }
}

/// Returns the text of a strategy with both gaps 0, or the refusal.
pub(crate) fn solved(alloc: Global, form: &Abstract) -> Result<Vec<u8>, Stop>
    requires { IsSmall (abstract_frame form.now) (lists_of form.now) }
    ensures { Answers (Solves (file_game_in form.now) (lists_of form.now)) result }
{
    match solve(alloc, form) {
        Ok((one, two)) => Ok(text_of(alloc, form, &one, &two)?),
        Err(error) => Err(stopped(form, error)),
    }
}
