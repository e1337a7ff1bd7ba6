//! Two sources and a sink in memory. `MemSource` and `MemSink` fail at the calls of a list.

ghost use Rattle.std.specs.{Prelude.{◌≡◌, ◌≤◌, ◌<◌, ◌+◌, ◌-◌, length, take, drop, Some, IfOk, min, []}, Io.{ReadsAtMost}};
ghost use Rattle.std.specs.Io.KnownBytes.{ReadConsumes, WriteAppends};
ghost use Rattle.gs_io.specs.{Causes.{HasCause}, Memory.{Reading, Writing, TakesNext, GivesNext}};

use crate::{Failed, Sink, Source, count_fault};
use std::alloc::{AllocError, Global};
use std::marker::Model;

// Copies the first bytes to the front of `into`, as many as fit but at most `most`, and returns how many.
fn copy_front(from: &[u8], into: &mut [u8], most: usize) -> usize
    ensures count { result ≡ min (min (length from.now) (length into.old)) most }
    ensures copied { take result into.new ≡ take result from.now }
{
    let count = from.len().min(into.len()).min(most);
    into[..count].copy_from_slice(&from[..count]);
    count
}

/// A source over bytes in memory, which gives at most `piece` bytes a call. The calls whose numbers
/// stand in a list fail. Calls are counted from 1, and up to 2^32 - 1.
#[derive(Drop)]
pub struct MemSource {
    bytes: Vec<u8>,
    at: usize,
    piece: u32,
    fails: Vec<u32>,
    calls: u32,
    faults: u64,
}

impl Model for MemSource {
    ghost use Rattle.std.specs.Prelude.{drop, ◌≤◌, length, ◌<◌};
    ghost use Rattle.gs_io.specs.Memory.{Reading};

    ghost Value = { Reading };

    ghost view = { λ s. record { left = drop s.at s.bytes.items; piece = s.piece; fails = s.fails.items; calls = s.calls; faults = s.faults } };

    ghost invariant = { λ s. (s.at ≤ length s.bytes.items) × (1 ≤ s.piece) };
}

impl MemSource {
    /// Returns a source over `bytes`, before its first call.
    pub fn new(bytes: Vec<u8>, piece: u32, fails: Vec<u32>) -> MemSource
        requires { 1 ≤ piece }
        ensures { result ≡ record { left = bytes.items; piece = piece; fails = fails.items; calls = 0; faults = 0 } }
    {
        MemSource {
            bytes,
            at: 0,
            piece,
            fails,
            calls: 0,
            faults: 0,
        }
    }
}

impl Source for MemSource {
    ghost left = { λ s. Some s.left };

    ghost faults = { λ s. s.faults };

    fn take(&mut self, into: &mut [u8]) -> Result<usize, Failed>
        requires { 0 < length into.old }
        ensures bound { ReadsAtMost result into.new }
        ensures bytes { ReadConsumes (Some self.old.left) (Some self.new.left) result into.new }
        ensures cause { HasCause self.old.faults self.new.faults result }
        ensures exact { TakesNext self.old (length into.old) self.new result }
    {
        self.calls = self.calls.saturating_add(1);
        if self.fails.contains(&self.calls) {
            return Err(count_fault(&mut self.faults));
        }
        let count = copy_front(&self.bytes[self.at..], into, self.piece as usize);
        self.at += count;
        Ok(count)
    }
}

/// A source over bytes in memory that never fails. A call gives as many bytes as fit.
#[derive(Drop)]
pub struct SureSource {
    bytes: Vec<u8>,
    at: usize,
}

impl Model for SureSource {
    ghost use Rattle.std.specs.Prelude.{drop, ◌≤◌, length, List, ℕ};

    ghost Value = { List ℕ };

    ghost view = { λ s. drop s.at s.bytes.items };

    ghost invariant = { λ s. s.at ≤ length s.bytes.items };
}

impl SureSource {
    /// Returns a source over `bytes`.
    pub fn new(bytes: Vec<u8>) -> SureSource
        ensures { result ≡ bytes.items }
    {
        SureSource { bytes, at: 0 }
    }
}

impl Source for SureSource {
    ghost left = { λ s. Some s };

    ghost faults = { λ s. 0 };

    fn take(&mut self, into: &mut [u8]) -> Result<usize, Failed>
        requires { 0 < length into.old }
        ensures bound { ReadsAtMost result into.new }
        ensures bytes { ReadConsumes (Some self.old) (Some self.new) result into.new }
        ensures cause { HasCause 0 0 result }
        ensures exact { result ≡ Ok (min (length self.old) (length into.old)) }
    {
        let most = into.len();
        let count = copy_front(&self.bytes[self.at..], into, most);
        self.at += count;
        Ok(count)
    }
}

/// A sink in memory, which takes at most `piece` bytes a call and `room` bytes in all. A call fails
/// if its number stands in a list, or if the room is full. Calls are counted as in a
/// [`MemSource`].
#[derive(Drop)]
pub struct MemSink {
    bytes: Vec<u8>,
    room: u32,
    piece: u32,
    fails: Vec<u32>,
    calls: u32,
    faults: u64,
}

impl Model for MemSink {
    ghost use Rattle.std.specs.Prelude.{◌≤◌, length, vec_capacity};
    ghost use Rattle.gs_io.specs.Memory.{Writing};

    ghost Value = { Writing };

    ghost view = { λ s. record { given = s.bytes.items; room = s.room; piece = s.piece; fails = s.fails.items; calls = s.calls; faults = s.faults } };

    ghost invariant = { λ s. (length s.bytes.items ≤ s.room) × (s.room ≤ vec_capacity s.bytes) × (1 ≤ s.piece) };
}

impl MemSink {
    /// Returns an empty sink, before its first call. Its room is allocated at once.
    pub fn new(alloc: Global, room: u32, piece: u32, fails: Vec<u32>) -> Result<MemSink, AllocError>
        requires { 1 ≤ piece }
        ensures { IfOk result (λ s. s ≡ record { given = []; room = room; piece = piece; fails = fails.items; calls = 0; faults = 0 }) }
    {
        Ok(MemSink {
            bytes: Vec::with_capacity(alloc, room as usize)?,
            room,
            piece,
            fails,
            calls: 0,
            faults: 0,
        })
    }

    /// Returns the bytes taken so far.
    pub fn given(&self) -> &[u8]
        ensures { result.now ≡ self.now.given }
    {
        &self.bytes
    }
}

impl Sink for MemSink {
    ghost given = { λ s. Some s.given };

    ghost faults = { λ s. s.faults };

    fn give(&mut self, bytes: &[u8]) -> Result<usize, Failed>
        requires { 0 < length bytes.now }
        ensures count { IfOk result (λ n. (1 ≤ n) × (n ≤ length bytes.now)) }
        ensures bytes { WriteAppends (Some self.old.given) (Some self.new.given) result bytes.now }
        ensures cause { HasCause self.old.faults self.new.faults result }
        ensures exact { GivesNext self.old bytes.now self.new result }
    {
        self.calls = self.calls.saturating_add(1);
        let room = self.room as usize - self.bytes.len();
        if room == 0 || self.fails.contains(&self.calls) {
            return Err(count_fault(&mut self.faults));
        }
        let count = bytes.len().min(room).min(self.piece as usize);
        match self.bytes.extend_from_slice(&bytes[..count]) {
            Ok(()) => Ok(count),
            Err(_) => Err(count_fault(&mut self.faults)),
        }
    }
}
