//! Texts that runs read and print: their form in rows, and their names.

use crate::fault::{RowError, RowFault};
use std::alloc::{AllocError, Global};
use std::collections::BTreeMap;
use std::str;

/// Texts with their names.
#[derive(Drop)]
pub struct Texts {
    named: BTreeMap<String, Vec<u8>>,
}

/// Returns the text that a row writes. `~` stands for a line feed, and `␣` for a space at the beginning or the end.
pub fn text_of(alloc: Global, written: &str) -> Result<String, AllocError> {
    let lines = written.trim().replace(alloc, '~', "\n")?;
    lines.as_str().replace(alloc, '␣', " ")
}

/// Adds the bytes of a part like `200 x 5b`: the number of times, and the byte in hexadecimal.
fn push_repeated(bytes: &mut Vec<u8>, count: &str, byte: &str) -> Result<(), RowError> {
    let count = count.trim().parse::<u32>().or(Err(RowFault::Repeat))?;
    let byte = u8::from_str_radix(byte.trim(), 16).or(Err(RowFault::Repeat))?;
    for _ in 0..count {
        bytes.push(byte)?;
    }
    Ok(())
}

/// Returns a text in which the first occurrence of a part is replaced.
fn changed(alloc: Global, file: &str, change: &str) -> Result<String, RowError> {
    let (old, new) = change.split_once("->").ok_or(RowFault::NoPlace)?;
    let old = text_of(alloc, old)?;
    let new = text_of(alloc, new)?;
    let (before, behind) = file.split_once(old.as_str()).ok_or(RowFault::NoPlace)?;
    Ok(format!(in alloc; "{before}{new}{behind}")?)
}

/// Returns a text with several changes made one after the other; ` ; ` stands between two.
fn changed_by(alloc: Global, file: &[u8], changes: &str) -> Result<String, RowError> {
    let text = str::from_utf8(file).or(Err(RowFault::NoPlace))?;
    let mut text = String::from_str(alloc, text)?;
    for change in changes.split(" ; ") {
        text = changed(alloc, text.as_str(), change)?;
    }
    Ok(text)
}

impl Texts {
    /// Returns an empty collection.
    pub fn new(alloc: Global) -> Texts {
        Texts {
            named: BTreeMap::new(alloc),
        }
    }

    /// Adds a text under a name that is not empty and not yet taken.
    pub fn name(&mut self, alloc: Global, name: &str, bytes: Vec<u8>) -> Result<(), RowError> {
        if name.is_empty() || self.named.get(name).is_some() {
            return Err(RowError::Fault(RowFault::Naming));
        }
        self.named.insert(String::from_str(alloc, name)?, bytes)?;
        Ok(())
    }

    /// Returns the text of a name.
    pub fn of(&self, name: &str) -> Result<&[u8], RowFault> {
        match self.named.get(name.trim()) {
            Some(bytes) => Ok(bytes),
            None => Err(RowFault::NoName),
        }
    }

    /// Adds the prefix that a part like `100 bytes of kuhn` describes.
    fn push_front(&self, bytes: &mut Vec<u8>, count: &str, name: &str) -> Result<(), RowError> {
        let count = count.parse::<usize>().or(Err(RowFault::Short))?;
        let front = self.of(name)?.get(..count).ok_or(RowFault::Short)?;
        bytes.extend_from_slice(front)?;
        Ok(())
    }

    /// Adds one part of an input.
    fn push_part(&self, alloc: Global, bytes: &mut Vec<u8>, part: &str) -> Result<(), RowError> {
        if let Some(written) = part.strip_prefix("= ") {
            Ok(bytes.extend_from_slice(text_of(alloc, written)?.as_bytes())?)
        } else if let Some((name, change)) = part.split_once(": ") {
            let text = changed_by(alloc, self.of(name)?, change)?;
            Ok(bytes.extend_from_slice(text.as_bytes())?)
        } else if let Some((count, name)) = part.split_once(" bytes of ") {
            self.push_front(bytes, count, name)
        } else if let Some((count, byte)) = part.split_once(" x ") {
            push_repeated(bytes, count, byte)
        } else {
            Ok(bytes.extend_from_slice(self.of(part)?)?)
        }
    }

    /// Returns the input that the parts of a row describe, and an empty one without parts.
    pub fn read(&self, alloc: Global, parts: &str) -> Result<Vec<u8>, RowError> {
        let mut bytes = Vec::new(alloc);
        if parts.trim().is_empty() {
            return Ok(bytes);
        }
        for part in parts.split(" + ") {
            self.push_part(alloc, &mut bytes, part.trim())?;
        }
        Ok(bytes)
    }
}
