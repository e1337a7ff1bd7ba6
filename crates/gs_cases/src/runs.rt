//! Runs in memory, and how they differ from their rows.

use crate::fault::{RowError, RowFault};
use crate::report::{Found, differences};
use crate::row::{Ends, Line, Row, line_of};
use crate::texts::{Texts, text_of};
use gs_io::{MemSink, MemSource};
use gs_run::{Outcome, Status, run, run_bytes};
use std::alloc::{AllocError, Global};

/// The most bytes that stdout takes, and stderr.
const ROOM: u32 = 1_000_000;

/// Returns the words of a field; `''` stands for an empty word.
fn words_in(alloc: Global, field: &str) -> Result<Vec<String>, AllocError> {
    let mut words = Vec::new(alloc);
    for word in field.split_whitespace() {
        words.push(String::from_str(alloc, if word == "''" { "" } else { word })?)?;
    }
    Ok(words)
}

/// Returns the calls that fail: `call` alone, or none if it is 0.
fn failing(alloc: Global, call: u32) -> Result<Vec<u32>, AllocError> {
    let mut calls = Vec::new(alloc);
    if call > 0 {
        calls.push(call)?;
    }
    Ok(calls)
}

/// Returns the outcome of a run of these words over an input.
fn ended(alloc: Global, words: &str, input: Vec<u8>, ends: Ends) -> Result<Outcome, AllocError> {
    let words = words_in(alloc, words)?;
    let mut source = MemSource::new(input, ends.piece, failing(alloc, ends.read)?);
    let mut out = MemSink::new(alloc, ROOM, ends.piece, failing(alloc, ends.write)?)?;
    let mut err = MemSink::new(alloc, ROOM, ends.piece, failing(alloc, ends.tell)?)?;
    let status = run(alloc, &words, &mut source, &mut out, &mut err);
    Ok(Outcome {
        status,
        printed: Vec::from_slice(alloc, out.given())?,
        told: Vec::from_slice(alloc, err.given())?,
    })
}

/// Returns how the run of a row differs from it.
fn compare_run(alloc: Global, texts: &Texts, row: &Row<'_>) -> Result<Found, RowError> {
    let input = texts.read(alloc, row.input)?;
    let end = ended(alloc, row.words, input, row.ends)?;
    differences(alloc, texts, row, &end)
}

/// Adds the text that a run prints, under a name.
fn name_made(
    alloc: Global,
    texts: &mut Texts,
    name: &str,
    words: &str,
    input: &str,
) -> Result<(), RowError> {
    let bytes = texts.read(alloc, input)?;
    let words = words_in(alloc, words)?;
    match run_bytes(alloc, &words, &bytes)? {
        Outcome {
            status: Status::Ok,
            printed,
            ..
        } => texts.name(alloc, name, printed),
        _ => Err(RowError::Fault(RowFault::Making)),
    }
}

/// Does what a line says: adds a named text, or compares a run.
fn done(alloc: Global, texts: &mut Texts, line: &str) -> Result<Found, RowError> {
    let naming = match line_of(alloc, line)? {
        Line::Remark => Ok(()),
        Line::Text { name, text } => texts.name(alloc, name, text_of(alloc, text)?.into_bytes()),
        Line::Made { name, words, input } => name_made(alloc, texts, name, words, input),
        Line::Run(row) => return compare_run(alloc, texts, &row),
    };
    naming?;
    Ok(Found::Nothing)
}

/// Returns what a line shows. A line that is not a valid row differs, and its text says why.
pub fn compare_line(alloc: Global, texts: &mut Texts, line: &str) -> Result<Found, AllocError> {
    match done(alloc, texts, line) {
        Ok(found) => Ok(found),
        Err(RowError::Memory) => Err(AllocError),
        Err(RowError::Fault(fault)) => Ok(Found::Differs(format!(in alloc;
            "\n  no row: {fault}"
        )?)),
    }
}
