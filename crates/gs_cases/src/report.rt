//! How a run differs from its row.

use crate::fault::{RowError, RowFault};
use crate::row::Row;
use crate::texts::{Texts, text_of};
use gs_run::Outcome;
use std::alloc::{AllocError, Global};
use std::fmt::Write;

/// What a line shows.
#[derive(Drop)]
pub enum Found {
    /// It has no run.
    Nothing,
    /// Its run ends as the row expects.
    Same,
    /// Its run ends otherwise, or the line is not a valid row; a text says what differs.
    Differs(String),
}

impl Found {
    /// Returns the text of what differs.
    pub fn text(&self) -> Option<&str> {
        match self {
            Found::Differs(text) => Some(text.as_str()),
            _ => None,
        }
    }
}

/// Returns bytes as a row writes them.
fn written(alloc: Global, bytes: &[u8]) -> Result<String, AllocError> {
    String::from_utf8_lossy(alloc, bytes)?
        .as_str()
        .replace(alloc, '\n', "~")
}

/// Returns whether bytes are what a field describes: a text; `@` and the name of an input; or, as `800 bytes ending TEXT`, their number and their end.
fn is_field(alloc: Global, texts: &Texts, field: &str, bytes: &[u8]) -> Result<bool, RowError> {
    if let Some(name) = field.strip_prefix("@") {
        return Ok(texts.of(name)? == bytes);
    }
    if let Some((count, end)) = field.split_once(" bytes ending ") {
        let count = count.parse::<usize>().or(Err(RowFault::Short))?;
        return Ok(bytes.len() == count && bytes.ends_with(text_of(alloc, end)?.as_bytes()));
    }
    Ok(text_of(alloc, field)?.as_bytes() == bytes)
}

/// Adds a line with an output that differs from its field.
fn push_output(
    alloc: Global,
    text: &mut String,
    texts: &Texts,
    name: &str,
    field: &str,
    bytes: &[u8],
) -> Result<(), RowError> {
    if !is_field(alloc, texts, field, bytes)? {
        let found = written(alloc, bytes)?;
        write!(text, "\n  {name} {found}")?;
    }
    Ok(())
}

/// Compares the outcome of a run with its row. Each difference stands in a line of its own, after a line feed.
pub fn differences(
    alloc: Global,
    texts: &Texts,
    row: &Row<'_>,
    end: &Outcome,
) -> Result<Found, RowError> {
    let mut text = String::new(alloc);
    let status = end.status.code();
    if status != row.status {
        write!(text, "\n  status {status}")?;
    }
    push_output(alloc, &mut text, texts, "out", row.out, &end.printed)?;
    push_output(alloc, &mut text, texts, "err", row.err, &end.told)?;
    if text.is_empty() {
        return Ok(Found::Same);
    }
    Ok(Found::Differs(text))
}
