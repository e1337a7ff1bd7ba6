//! Reads and writes that end well, and ones that fail on the way.

ghost use Rattle.std.specs.Prelude.{◌<◌, ◌≤◌, ◌^◌};

use gs_io::{
    InputError, InputFault, MemSink, MemSource, Source, StdSink, StdSource, SureSource, WriteStop,
    read_all, write_all,
};
use std::alloc::{AllocError, Global};
use std::io::{self, ErrorKind, Read, Write};
use std::test::Fail;

// Returns the results of reading all bytes, twice.
fn read_twice<S: Source>(
    alloc: Global,
    source: &mut S,
    limit: u64,
) -> (Result<Vec<u8>, InputError>, Result<Vec<u8>, InputError>)
    requires { limit < 2 ^ 32 }
{
    let first = read_all(alloc, source, limit);
    (first, read_all(alloc, source, 99))
}

// Returns whether a result is the expected one.
fn is_read(answer: &Result<Vec<u8>, InputError>, wanted: &Result<&[u8], InputFault>) -> bool {
    match (answer, wanted) {
        (Ok(bytes), Ok(text)) => bytes.as_slice() == *text,
        (Err(InputError::Fault(fault)), Err(other)) => *fault == *other,
        _ => false,
    }
}

// Bytes, the longest piece, the call that fails, the limit, the expected result, and the bytes of a second read.
type ReadRow = (
    &'static [u8],
    u32,
    u32,
    u64,
    Result<&'static [u8], InputFault>,
    &'static [u8],
);

const READS: &[ReadRow] = &[
    (b"hello", 2, 0, 9, Ok(b"hello"), b""),
    (b"hello", 9, 0, 5, Ok(b"hello"), b""),
    (b"", 1, 0, 0, Ok(b""), b""),
    (b"hello", 2, 0, 4, Err(InputFault::TooLong), b""),
    (b"hello", 9, 0, 2, Err(InputFault::TooLong), b"lo"),
    (b"hello", 1, 0, 0, Err(InputFault::TooLong), b"ello"),
    (b"hello", 2, 1, 9, Err(InputFault::Failed), b"hello"),
    (b"hello", 2, 2, 9, Err(InputFault::Failed), b"llo"),
    (b"hello", 2, 4, 9, Err(InputFault::Failed), b""),
    (b"hello", 2, 9, 1, Err(InputFault::TooLong), b"llo"),
    (b"hello", 2, 6, 9, Ok(b"hello"), b""),
    (b"", 2, 1, 0, Err(InputFault::Failed), b""),
];

// Returns whether both results of a source are those of its row.
fn are_read<S: Source>(alloc: Global, source: &mut S, row: &ReadRow) -> bool
    requires { row.now.3 < 2 ^ 32 }
{
    let (_, _, _, limit, first, second) = *row;
    let answers = read_twice(alloc, source, limit);
    is_read(&answers.0, &first) && is_read(&answers.1, &Ok(second))
}

// Returns whether a source in memory gives the results of its row.
fn reads(alloc: Global, row: &ReadRow) -> Result<bool, AllocError>
    requires piece { 1 ≤ row.now.1 }
    requires limit { row.now.3 < 2 ^ 32 }
{
    let fails = Vec::from_slice(alloc, &[row.2])?;
    let bytes = Vec::from_slice(alloc, row.0)?;
    let mut source = MemSource::new(bytes, row.1, fails);
    Ok(are_read(alloc, &mut source, row))
}

// Returns whether a source that never fails gives the results of the row.
fn reads_surely(alloc: Global, row: &ReadRow) -> Result<bool, AllocError>
    requires limit { row.now.3 < 2 ^ 32 }
{
    let mut source = SureSource::new(Vec::from_slice(alloc, row.0)?);
    Ok(are_read(alloc, &mut source, row))
}

#[test]
fn reads_everything_or_stops(rt: HostRuntime) -> Result<(), Fail> {
    for (index, row) in READS.iter().enumerate() {
        assert!(rt; 1 <= row.1 && row.3 < 99);
        assert!(rt; reads(rt.alloc(), row)?, "row {index}");
        assert!(rt; row.2 != 0 || reads_surely(rt.alloc(), row)?, "row {index}");
    }
    Ok(())
}

// Bytes, room, the longest piece, the call that fails, and the number of bytes written before the fault, if there is one.
type WriteRow = (&'static [u8], u32, u32, u32, Option<usize>);

const WRITES: &[WriteRow] = &[
    (b"hello", 9, 3, 0, None),
    (b"hello", 5, 1, 0, None),
    (b"", 0, 1, 1, None),
    (b"hello", 9, 3, 2, Some(3)),
    (b"hello", 9, 3, 1, Some(0)),
    (b"hello", 9, 3, 3, None),
    (b"hello", 4, 3, 0, Some(4)),
    (b"hello", 0, 3, 0, Some(0)),
];

// Returns the result of writing the bytes of a row, and the bytes that were written.
fn written(alloc: Global, row: &WriteRow) -> Result<(Result<(), WriteStop>, Vec<u8>), AllocError>
    requires { 1 ≤ row.now.2 }
{
    let fails = Vec::from_slice(alloc, &[row.3])?;
    let mut sink = MemSink::new(alloc, row.1, row.2, fails)?;
    let answer = write_all(&mut sink, row.0);
    let given = Vec::from_slice(alloc, sink.given())?;
    Ok((answer, given))
}

// Returns the expected result of writing.
fn wanted(stop: Option<usize>) -> Result<(), WriteStop> {
    match stop {
        Some(written) => Err(WriteStop::Fault { written }),
        None => Ok(()),
    }
}

#[test]
fn writes_everything_or_stops(rt: HostRuntime) -> Result<(), Fail> {
    for (index, row) in WRITES.iter().enumerate() {
        assert!(rt; 1 <= row.2);
        let (answer, given) = written(rt.alloc(), row)?;
        let front = row.0.get(..row.4.unwrap_or(row.0.len()));
        assert_eq!(rt; answer, wanted(row.4), "row {index}");
        assert_eq!(rt; Some(given.as_slice()), front, "row {index}");
    }
    Ok(())
}

// What a reader or a writer does at one of its turns.
#[derive(Clone, Copy)]
enum Turn {
    Moves(usize),
    Fails(ErrorKind),
}

// A reader of `a`s and a writer that follow a list of turns, and do nothing after it.
#[derive(Drop)]
struct Script<'a> {
    turns: &'a [Turn],
}

impl Script<'_> {
    fn next_turn(&mut self) -> Turn {
        match self.turns.split_first() {
            Some((turn, others)) => {
                self.turns = others;
                *turn
            }
            None => Turn::Moves(0),
        }
    }
}

impl Read for Script<'_> {
    fn read(&mut self, buf: &mut [u8]) -> io::Result<usize> {
        match self.next_turn() {
            Turn::Moves(count) => {
                let count = count.min(buf.len());
                for place in buf[..count].iter_mut() {
                    *place = b'a';
                }
                Ok(count)
            }
            Turn::Fails(kind) => Err(io::Error::from(kind)),
        }
    }
}

impl Write for Script<'_> {
    fn write(&mut self, buf: &[u8]) -> io::Result<usize> {
        match self.next_turn() {
            Turn::Moves(count) => Ok(count.min(buf.len())),
            Turn::Fails(kind) => Err(io::Error::from(kind)),
        }
    }

    fn flush(&mut self) -> io::Result<()> {
        Ok(())
    }
}

// Returns whether a first read meets the failing turn, and a second one the turn after it.
fn reads_turns(alloc: Global, turns: &[Turn]) -> bool {
    let mut source = StdSource::new(Script { turns });
    let answers = read_twice(alloc, &mut source, 9);
    is_read(&answers.0, &Err(InputFault::Failed)) && is_read(&answers.1, &Ok(b"aa"))
}

// Returns the results of two writes.
fn written_in_turns(turns: &[Turn]) -> (Result<(), WriteStop>, Result<(), WriteStop>) {
    let mut sink = StdSink::new(Script { turns });
    let first = write_all(&mut sink, b"hello");
    (first, write_all(&mut sink, b"lo"))
}

#[test]
fn real_ends_fail_at_every_error(rt: HostRuntime) {
    for kind in [ErrorKind::Interrupted, ErrorKind::BrokenPipe] {
        let turns = [Turn::Moves(3), Turn::Fails(kind), Turn::Moves(2)];
        assert!(rt; reads_turns(rt.alloc(), &turns), "{kind:?}");
        let stopped = Err(WriteStop::Fault { written: 3 });
        assert_eq!(rt; written_in_turns(&turns), (stopped, Ok(())), "{kind:?}");
    }
    // a write that takes no byte
    let (stop, _) = written_in_turns(&[Turn::Moves(4), Turn::Moves(0), Turn::Moves(1)]);
    assert_eq!(rt; stop, Err(WriteStop::Fault { written: 4 }));
}
