//! The command `path`.

ghost use Rattle.gs_reply.specs.Replies.{Answers, StopsFor, Tells};
ghost use Rattle.gs_seq.specs.Abstracts.{abstract_frame, lists_of};
ghost use Rattle.gs_game_commands.specs.{Paths.{ShowsPath}, Settling.{file_game_in}, Solving.{Solves}};
ghost use Rattle.gs_solve.specs.Solutions.{IsProgramError, IsSolveFault};

use crate::lines::path_text;
use gs_reply::{Limit, Overflow, Refusal, Stop};
use gs_seq::Abstract;
use gs_simplex::{PathError, PathFault};
use gs_solve::{MOST_PIVOTS, SolveError, SolveFault, sparse_program};
use std::alloc::Global;

// Returns the refusal of a game whose path stops before its end. The path is never unbounded.
pub(crate) fn unended(form: &Abstract, fault: PathFault) -> Refusal
    requires { IsSolveFault (abstract_frame form.now) (lists_of form.now) (SolveFault.Path fault) }
    ensures path { Tells (ShowsPath (file_game_in form.now) (lists_of form.now)) result }
    ensures solve { Tells (Solves (file_game_in form.now) (lists_of form.now)) result }
{
    match fault {
        PathFault::TableTooLarge { count } => Refusal::TooLarge(Limit::TableNumbers { count }),
        PathFault::Wide {
            step,
            row,
            col,
            number,
        } => Refusal::Overflows(Overflow::AtStep {
            step,
            row,
            column: col,
            number,
        }),
        PathFault::Pivots => Refusal::ManyPivots,
        PathFault::Unbounded { .. } => unreachable!(),
    }
}

// Returns why a game's linear program is not made: its table is too large, or memory ran out.
fn unmade(form: &Abstract, error: SolveError) -> Stop
    requires { IsProgramError (abstract_frame form.now) (lists_of form.now) error }
    ensures { StopsFor (ShowsPath (file_game_in form.now) (lists_of form.now)) result }
{
    match error {
        SolveError::Fault(SolveFault::Path(fault)) => Stop::Refused(unended(form, fault)),
        _ => Stop::Memory,
    }
}

/// Returns the lines of the path of a game's linear program, or the refusal.
pub(crate) fn shown(alloc: Global, form: &Abstract) -> Result<Vec<u8>, Stop>
    ensures { Answers (ShowsPath (file_game_in form.now) (lists_of form.now)) result }
{
    let (p, opening) = match sparse_program(alloc, form) {
        Ok(made) => made,
        Err(error) => return Err(unmade(form, error)),
    };
    match p.path(alloc, &opening, MOST_PIVOTS) {
        Ok(path) => Ok(path_text(alloc, &path)?.into_bytes()),
        Err(PathError::Memory) => Err(Stop::Memory),
        Err(PathError::Fault(fault)) => Err(Stop::Refused(unended(form, fault))),
    }
}
