//! The program as a process, over the words of its command line.

ghost use Rattle.std.specs.Prelude.{◌≡◌};
ghost use Rattle.gs_run.specs.Running.{ends};
ghost use Rattle.gs_run.specs.Starting.{EndsStarted, Started};

use crate::runs::{out_of_memory, refuse_words, run};
use crate::status::Status;
use gs_io::{Sink, Source};
use gs_words::WordsStop;
use std::io::ErrorKind;
use std::rt::Env;

// Returns the words of the command line after the program's name.
fn words_of<R: Env + AllocGlobal>(rt: &R) -> Result<Vec<String>, WordsStop> {
    let words = match std::env::args(rt) {
        Ok(words) => words,
        Err(error) => match error.kind() {
            ErrorKind::OutOfMemory => return Err(WordsStop::Memory),
            _ => return Err(WordsStop::Usage),
        },
    };
    match words.skip(1).collect(rt.alloc()) {
        Ok(words) => Ok(words),
        Err(_) => Err(WordsStop::Memory),
    }
}

// Runs the program over the words of the command line.
fn run_started<R: Env + AllocGlobal, S: Source, O: Sink, E: Sink>(
    rt: &R,
    source: &mut S,
    out: &mut O,
    err: &mut E,
) -> Status
    ensures { EndsStarted
        (ends (S.left source.old) (S.faults source.old) (O.given out.old) (O.faults out.old) (E.given err.old) (E.faults err.old))
        (ends (S.left source.new) (S.faults source.new) (O.given out.new) (O.faults out.new) (E.given err.new) (E.faults err.new))
        result }
{
    match words_of(rt) {
        Ok(words) => run(rt.alloc(), &words, source, out, err),
        Err(WordsStop::Usage) => refuse_words(err),
        Err(WordsStop::Memory) => out_of_memory(err),
    }
}

/// Runs the program over the words of the command line, and returns the exit status of the process.
///
/// Words that are not UTF-8 get the usage line.
pub fn start<R: Env + AllocGlobal, S: Source, O: Sink, E: Sink>(
    rt: &R,
    source: &mut S,
    out: &mut O,
    err: &mut E,
) -> u8
    ensures { Started
        (ends (S.left source.old) (S.faults source.old) (O.given out.old) (O.faults out.old) (E.given err.old) (E.faults err.old))
        (ends (S.left source.new) (S.faults source.new) (O.given out.new) (O.faults out.new) (E.given err.new) (E.faults err.new))
        result }
{
    run_started(rt, source, out, err).code()
}
