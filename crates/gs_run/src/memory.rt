//! The program over words and bytes in memory.

ghost use Rattle.std.specs.Prelude.{◌≡◌, [], IfOk, map, string_bytes};
ghost use Rattle.gs_reply.specs.{Refusals.{Refusal as Why}, Replies.{IsRefusal, Refuses}};
ghost use Rattle.gs_words.specs.Tasks.{IsInRange, task_of};
ghost use Rattle.gs_run.specs.{Asking.{Asks}, InMemory.{DoesInMemory, GivesAnswer, GivesOutcome, GivesReply}};

use crate::asking::{answer, reads_input};
use crate::runs::{LONG_LINE, MOST_BYTES, USAGE_LINE};
use crate::status::Status;
use gs_reply::{Refusal, Stop, refusal_line};
use gs_words::{Request, WordsStop, read_words};
use std::alloc::{AllocError, Global};

/// The outcome of the program over words and bytes in memory.
#[derive(Drop)]
pub struct Outcome {
    /// The status of the run.
    pub status: Status,
    /// The bytes for stdout: a whole text at [`Status::Ok`], otherwise none.
    pub printed: Vec<u8>,
    /// The bytes for stderr: none at [`Status::Ok`], otherwise one line.
    pub told: Vec<u8>,
}

// Returns the outcome with the status, nothing for stdout and the line for stderr.
fn refusal(alloc: Global, status: Status, line: &str) -> Result<Outcome, AllocError>
    ensures { IfOk result (λ o. (o.status ≡ status) × (o.printed.items ≡ []) × (o.told.items ≡ line.now)) }
{
    let told = Vec::from_slice(alloc, line.as_bytes())?;
    Ok(Outcome {
        status,
        printed: Vec::new(alloc),
        told,
    })
}

// Returns the outcome of a refusal: its status, nothing for stdout and its line for stderr.
fn refused(alloc: Global, refusal: &Refusal) -> Result<Outcome, AllocError>
    ensures { IfOk result (λ o. (why : Why) → IsRefusal refusal.now why → GivesReply (Refuses why) o.status o.printed.items o.told.items) }
{
    let told = refusal_line(alloc, refusal)?;
    Ok(Outcome {
        status: Status::of(refusal),
        printed: Vec::new(alloc),
        told,
    })
}

// Returns the outcome of a request, once the length of its input is checked.
fn answered(alloc: Global, request: Request, input: &[u8]) -> Result<Outcome, AllocError>
    requires { IsInRange (task_of request) }
    ensures { IfOk result (λ o. GivesAnswer (task_of request.entry) input.now o.status o.printed.items o.told.items) }
{
    match answer(alloc, request, input) {
        Ok(printed) => Ok(Outcome {
            status: Status::Ok,
            printed,
            told: Vec::new(alloc),
        }),
        Err(Stop::Refused(refusal)) => refused(alloc, &refusal),
        Err(Stop::Memory) => Err(AllocError),
    }
}

// Returns the outcome for the words and the input.
fn given(alloc: Global, words: &[String], input: &[u8]) -> Result<Outcome, AllocError>
    ensures { IfOk result (λ o. GivesOutcome (map string_bytes words.now) input.now o.status o.printed.items o.told.items) }
{
    let request = match read_words(alloc, words) {
        Ok(request) => request,
        Err(WordsStop::Usage) => return refusal(alloc, Status::Usage, USAGE_LINE),
        Err(WordsStop::Memory) => return Err(AllocError),
    };
    if reads_input(request) && input.len() as u64 > MOST_BYTES {
        return refusal(alloc, Status::TooLong, LONG_LINE);
    }
    answered(alloc, request, input)
}

/// Returns the outcome of the program for words and an input in memory. `words` are the command line without the program's name.
///
/// Use it to embed the program: it reads and writes nothing. It refuses exactly what the program refuses, with the same lines.
///
/// # Errors
///
/// `AllocError` if memory runs out.
pub fn run_bytes(alloc: Global, words: &[String], input: &[u8]) -> Result<Outcome, AllocError>
    ensures { IfOk result (λ o. DoesInMemory (map string_bytes words.now) input.now o.status o.printed.items o.told.items) }
{
    given(alloc, words, input)
}
