//! Compares runs of the whole program with what files of rows say of them.
//!
//! Its words are the paths of these files. For each run it compares the status, stdout and stderr, and prints what differs. A line that is not a valid
//! row is printed too, and counts as a run that differs. After each file it prints the number of its runs and the number of those that differ. At the end
//! it prints these counts over all files. `data/README` has the form of a row.
#![tactic(auto)]

mod fault;
mod report;
mod row;
mod runs;
mod tally;
mod texts;

use report::Found;
use std::process::ExitCode;
use std::rt::{Env, Files};
use std::{env, fs, io};
use tally::Tally;
use texts::Texts;

/// Returns the text of a file. If reading fails, it prints the file's path to stderr.
fn read<R: Files + Eprint + AllocGlobal>(rt: &R, path: &str) -> io::Result<String> {
    let text = fs::read_to_string(rt, path);
    if text.is_err() {
        eprintln!(rt; "{path} cannot be read")?;
    }
    text
}

/// Prints what differs in a line, with the line and its number.
fn print_found<R: Print>(
    rt: &R,
    path: &str,
    number: usize,
    line: &str,
    found: &Found,
) -> io::Result<()> {
    if let Some(differences) = found.text() {
        println!(rt; "{path} line {number}: {line}{differences}")?;
    }
    Ok(())
}

/// Compares the runs of the lines of a file, adds the texts that they name, and returns the counts.
fn compare_lines<R: Print + AllocGlobal>(
    rt: &R,
    texts: &mut Texts,
    path: &str,
    text: &str,
) -> io::Result<Tally> {
    let mut tally = Tally::default();
    for (place, line) in text.lines().enumerate() {
        let found = runs::compare_line(rt.alloc(), texts, line)?;
        tally.count(&found);
        print_found(rt, path, place.saturating_add(1), line, &found)?;
    }
    Ok(tally)
}

/// Compares the runs of a file, prints their counts, and returns them.
fn compare_file<R: Files + Print + Eprint + AllocGlobal>(
    rt: &R,
    texts: &mut Texts,
    path: &str,
) -> io::Result<Tally> {
    let text = read(rt, path)?;
    let tally = compare_lines(rt, texts, path, text.as_str())?;
    println!(rt; "{path}: {tally}")?;
    Ok(tally)
}

/// Compares the runs of all files that the words name, and returns the counts over all.
fn compare_files<R: Files + Print + Eprint + Env + AllocGlobal>(rt: &R) -> io::Result<Tally> {
    let mut texts = Texts::new(rt.alloc());
    let mut all = Tally::default();
    for path in env::args(rt)?.skip(1) {
        all.add(compare_file(rt, &mut texts, path.as_str())?);
    }
    Ok(all)
}

fn main(rt: HostRuntime) -> io::Result<ExitCode> {
    let all = compare_files(&rt)?;
    println!(rt; "all: {all}")?;
    Ok(ExitCode::from(u8::from(all.has_differences())))
}
