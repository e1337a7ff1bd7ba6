//! The rows of a file, and reading them.

ghost use Rattle.std.specs.Prelude.{◌≤◌};

use crate::fault::{RowError, RowFault};
use std::alloc::Global;

/// How the source and both outputs of a run behave.
#[derive(Clone, Copy)]
pub struct Ends {
    /// The most bytes that one call of each moves.
    pub piece: u32,
    /// The call of the source that fails, or 0.
    pub read: u32,
    /// The call of stdout that fails, or 0.
    pub write: u32,
    /// The call of stderr that fails, or 0.
    pub tell: u32,
    pub ghost moves: { 1 ≤ piece },
}

/// The most bytes that one call moves if a row does not say it.
const PIECE: u32 = 9;

impl Ends {
    /// Returns ends at which no call fails.
    pub fn sure() -> Ends {
        Ends {
            piece: PIECE,
            read: 0,
            write: 0,
            tell: 0,
        }
    }

    /// Returns the ends as an option of a row changes them.
    fn with(self, option: &str) -> Result<Ends, RowFault> {
        let (name, number) = option.split_once(' ').ok_or(RowFault::Ends)?;
        let number = number.parse::<u32>().or(Err(RowFault::Ends))?;
        if number == 0 {
            return Err(RowFault::Ends);
        }
        let mut ends = self;
        match name {
            "pieces" => ends.piece = number,
            "read" => ends.read = number,
            "write" => ends.write = number,
            "tell" => ends.tell = number,
            _ => return Err(RowFault::Ends),
        }
        Ok(ends)
    }

    /// Returns the ends that options with a comma between two describe.
    fn of(options: &str) -> Result<Ends, RowFault> {
        let mut ends = Ends::sure();
        for option in options.split(',') {
            ends = ends.with(option.trim())?;
        }
        Ok(ends)
    }
}

/// One run of the program, and its expected outcome.
#[derive(Clone, Copy)]
pub struct Row<'t> {
    pub ends: Ends,
    pub words: &'t str,
    pub input: &'t str,
    pub status: u8,
    pub out: &'t str,
    pub err: &'t str,
}

/// What a line of a file holds.
#[derive(Clone, Copy)]
pub enum Line<'t> {
    /// Nothing, or a comment.
    Remark,
    /// A text with its name.
    Text {
        name: &'t str,
        text: &'t str,
    },
    /// The name of a text, and the words and the input of the run that prints it.
    Made {
        name: &'t str,
        words: &'t str,
        input: &'t str,
    },
    /// A run.
    Run(Row<'t>),
}

/// Returns the ends and the words that the first field of a row holds.
fn ends_and_words(field: &str) -> Result<(Ends, &str), RowFault> {
    match field.strip_prefix("[") {
        Some(rest) => {
            let (options, words) = rest.split_once(']').ok_or(RowFault::Ends)?;
            Ok((Ends::of(options)?, words.trim()))
        }
        None => Ok((Ends::sure(), field)),
    }
}

/// Returns the run of six fields.
fn run_of<'t>(fields: &[&'t str]) -> Result<Row<'t>, RowFault> {
    match *fields {
        [first, input, status, out, err, why] => {
            if why.is_empty() {
                return Err(RowFault::NoReason);
            }
            let (ends, words) = ends_and_words(first)?;
            let status = status.parse::<u8>().or(Err(RowFault::Status))?;
            Ok(Row {
                ends,
                words,
                input,
                status,
                out,
                err,
            })
        }
        _ => Err(RowFault::Fields(fields.len())),
    }
}

/// Returns the name that a line gives, and what stands after it.
fn named(rest: &str) -> Result<(&str, &str), RowFault> {
    let (name, rest) = rest.split_once(" = ").ok_or(RowFault::Naming)?;
    Ok((name.trim(), rest))
}

/// Returns what a line holds.
pub fn line_of(alloc: Global, line: &str) -> Result<Line<'_>, RowError> {
    if line.trim().is_empty() || line.starts_with('#') {
        return Ok(Line::Remark);
    }
    if let Some(rest) = line.strip_prefix("text ") {
        let (name, text) = named(rest)?;
        return Ok(Line::Text { name, text });
    }
    if let Some(rest) = line.strip_prefix("made ") {
        let (name, run) = named(rest)?;
        let (words, input) = run.split_once('|').ok_or(RowFault::Naming)?;
        return Ok(Line::Made { name, words, input });
    }
    let fields: Vec<&str> = line.split('|').map(|field| field.trim()).collect(alloc)?;
    Ok(Line::Run(run_of(&fields)?))
}
