//! The whole program, over any source and any two sinks.

ghost use Rattle.std.specs.Prelude.{◌≡◌, ◌⊎◌, map, string_bytes};
ghost use Rattle.gs_reply.specs.{Refusals.{Refusal as Why, line_of}, Replies.{IsRefusal}};
ghost use Rattle.gs_words.specs.Tasks.{IsInRange, task_of};
ghost use Rattle.gs_run.specs.{Asking.{Asks, reads}, Statuses.{status_of}, Theorem.{Does}, Told.{TellsTo}};
ghost use Rattle.gs_run.specs.Running.{ReadsInput, RunsTo, Writes, ends, memory_line, sinks, usage_line};
ghost use Rattle.gs_run.specs.declared.status.Status.TheVariants as status;

use crate::asking::{answer, reads_input};
use crate::status::Status;
use gs_io::{InputError, InputFault, Sink, Source, read_all, write_all};
use gs_reply::{Refusal, Stop, refusal_line};
use gs_words::{Request, WordsStop, read_words};
use std::alloc::Global;

/// The greatest length of an input, in bytes.
pub(crate) const MOST_BYTES: u64 = 16_777_216;

/// The line for an invalid command line.
pub(crate) const USAGE_LINE: &str =
    "usage: gameshrink shrink, check, solve, play, evaluate, query, make, upgrade, judge, duel, certify, verify or path\n";

/// The line for an input that is too long.
pub(crate) const LONG_LINE: &str = "input longer than 16777216 bytes\n";

// Writes a line to `err`; a failure of this write is ignored.
fn tell<E: Sink>(err: &mut E, line: &[u8])
    ensures { TellsTo (E.given err.old) (E.faults err.old) (E.given err.new) (E.faults err.new) line.now }
{
    let _ = write_all(err, line);
}

// Writes the line to `err`, and returns the status.
fn refuse<E: Sink>(err: &mut E, status: Status, line: &str) -> Status
    ensures status { result ≡ status }
    ensures told { TellsTo (E.given err.old) (E.faults err.old) (E.given err.new) (E.faults err.new) line.now }
{
    tell(err, line.as_bytes());
    status
}

/// Writes the usage line to `err`, and returns the status for it.
pub(crate) fn refuse_words<E: Sink>(err: &mut E) -> Status
    ensures status { result ≡ status.Usage }
    ensures told { TellsTo (E.given err.old) (E.faults err.old) (E.given err.new) (E.faults err.new) usage_line }
{
    refuse(err, Status::Usage, USAGE_LINE)
}

/// Writes to `err` that memory ran out, and returns the status for it.
pub(crate) fn out_of_memory<E: Sink>(err: &mut E) -> Status
    ensures status { result ≡ status.Memory }
    ensures told { TellsTo (E.given err.old) (E.faults err.old) (E.given err.new) (E.faults err.new) memory_line }
{
    refuse(err, Status::Memory, "out of memory\n")
}

// Returns the input of a request: all bytes of the source, or no bytes for a request that reads none.
fn input<S: Source>(alloc: Global, source: &mut S, request: Request) -> Result<Vec<u8>, InputError>
    ensures { ReadsInput (reads (task_of request.entry)) (S.left source.old) (S.left source.new) (S.faults source.old) (S.faults source.new) result }
{
    if reads_input(request) {
        read_all(alloc, source, MOST_BYTES)
    } else {
        Ok(Vec::new(alloc))
    }
}

// Writes the line of a refusal to `err`, and returns the status for it; or the status for out of memory.
fn tell_refusal<E: Sink>(alloc: Global, refusal: &Refusal, err: &mut E) -> Status
    ensures { (why : Why) → IsRefusal refusal.now why
        → ((result ≡ status_of why) × TellsTo (E.given err.old) (E.faults err.old) (E.given err.new) (E.faults err.new) (line_of why))
        ⊎ ((result ≡ status.Memory) × TellsTo (E.given err.old) (E.faults err.old) (E.given err.new) (E.faults err.new) memory_line) }
{
    match refusal_line(alloc, refusal) {
        Ok(line) => {
            tell(err, &line);
            Status::of(refusal)
        }
        Err(_) => out_of_memory(err),
    }
}

// Answers a request for the bytes of its input: writes the text to `out`, or why it stops to `err`, and returns the status.
fn reply<O: Sink, E: Sink>(
    alloc: Global,
    request: Request,
    bytes: Vec<u8>,
    out: &mut O,
    err: &mut E,
) -> Status
    requires { IsInRange (task_of request) }
    ensures { Writes (Asks (task_of request.entry) bytes.items) (sinks (O.given out.old) (O.faults out.old) (E.given err.old) (E.faults err.old))
        (sinks (O.given out.new) (O.faults out.new) (E.given err.new) (E.faults err.new)) result }
{
    match answer(alloc, request, bytes) {
        Ok(text) => match write_all(out, &text) {
            Ok(()) => Status::Ok,
            Err(_) => refuse(err, Status::WriteFault, "write fault\n"),
        },
        Err(Stop::Refused(refusal)) => tell_refusal(alloc, &refusal, err),
        Err(Stop::Memory) => out_of_memory(err),
    }
}

// Runs the command that the words ask for.
fn run_words<S: Source, O: Sink, E: Sink>(
    alloc: Global,
    words: &[String],
    source: &mut S,
    out: &mut O,
    err: &mut E,
) -> Status
    ensures { RunsTo (map string_bytes words.now)
        (ends (S.left source.old) (S.faults source.old) (O.given out.old) (O.faults out.old) (E.given err.old) (E.faults err.old))
        (ends (S.left source.new) (S.faults source.new) (O.given out.new) (O.faults out.new) (E.given err.new) (E.faults err.new))
        result }
{
    let request = match read_words(alloc, words) {
        Ok(request) => request,
        Err(WordsStop::Usage) => return refuse_words(err),
        Err(WordsStop::Memory) => return out_of_memory(err),
    };
    let bytes = match input(alloc, source, request) {
        Ok(bytes) => bytes,
        Err(InputError::Memory) => return out_of_memory(err),
        Err(InputError::Fault(InputFault::Failed)) => {
            return refuse(err, Status::ReadFault, "read fault\n");
        }
        Err(InputError::Fault(InputFault::TooLong)) => {
            return refuse(err, Status::TooLong, LONG_LINE);
        }
    };
    reply(alloc, request, bytes, out, err)
}

/// Runs the command that the words ask for, and returns the status of the run. `words` are the command line without the program's name: a command and
/// its options.
///
/// A command with an input reads the source to its end first. It writes to `out` only when all work is done. At [`Status::Ok`] nothing is written to
/// `err`. At any other status one line is written to `err`; if that write fails, the status stays. Nothing is then written to `out`, unless a write to
/// `out` failed: then `out` received a proper prefix of the text.
pub fn run<S: Source, O: Sink, E: Sink>(
    alloc: Global,
    words: &[String],
    source: &mut S,
    out: &mut O,
    err: &mut E,
) -> Status
    ensures does { Does (record {
      words = map string_bytes words.now;
      old = ends (S.left source.old) (S.faults source.old) (O.given out.old) (O.faults out.old) (E.given err.old) (E.faults err.old);
      new = ends (S.left source.new) (S.faults source.new) (O.given out.new) (O.faults out.new) (E.given err.new) (E.faults err.new);
      status = result;
    }) }
    ensures runs { RunsTo (map string_bytes words.now)
        (ends (S.left source.old) (S.faults source.old) (O.given out.old) (O.faults out.old) (E.given err.old) (E.faults err.old))
        (ends (S.left source.new) (S.faults source.new) (O.given out.new) (O.faults out.new) (E.given err.new) (E.faults err.new))
        result }
{
    run_words(alloc, words, source, out, err)
}
