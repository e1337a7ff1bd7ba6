//! Reads the lists of a strategy's text straight from its bytes, without a value of JSON for each number.
//!
//! The lists need not be those of the bytes: the caller compares the text of the strategy with them. So the functions here have no clauses. A fault means
//! only that the bytes were not read this way.

use crate::fault::{StoreError, StoreFault};
use std::alloc::Global;

/// The long lists of a file, and its bytes without their numbers.
#[derive(Drop)]
pub struct Lists {
    pub classes: Vec<Vec<u32>>,
    pub one: Vec<u64>,
    pub two: Vec<u64>,
    pub others: Vec<u8>,
}

/// Returns the bytes after the prefix `front`.
fn behind<'b>(bytes: &'b [u8], front: &[u8]) -> Result<&'b [u8], StoreFault> {
    match bytes.strip_prefix(front) {
        Some(rest) => Ok(rest),
        None => Err(StoreFault::NotJson),
    }
}

/// Returns numbers with commas between them, or none before a closing bracket, and the bytes from the first other byte on.
fn numbers_in(alloc: Global, bytes: &[u8]) -> Result<(Vec<u64>, &[u8]), StoreError> {
    let mut numbers = Vec::new(alloc);
    if bytes.starts_with(b"]") {
        return Ok((numbers, bytes));
    }
    let mut number: u64 = 0;
    for (i, b) in bytes.iter().enumerate() {
        match *b {
            b'0'..=b'9' => number = number.wrapping_mul(10).wrapping_add(u64::from(*b - b'0')),
            b',' => {
                numbers.push(number)?;
                number = 0;
            }
            _ => {
                numbers.push(number)?;
                numbers.shrink_to_fit();
                return Ok((numbers, &bytes[i..]));
            }
        }
    }
    Err(StoreError::Fault(StoreFault::NotJson))
}

/// Returns the numbers as class numbers.
fn narrowed(alloc: Global, numbers: &[u64]) -> Result<Vec<u32>, StoreError> {
    let mut list = Vec::with_capacity(alloc, numbers.len())?;
    for number in numbers {
        match u32::try_from(*number) {
            Ok(number) => list.push(number)?,
            Err(_) => return Err(StoreError::Fault(StoreFault::NotJson)),
        }
    }
    Ok(list)
}

/// Returns the lists of class numbers, from the bytes after the first two brackets, and the bytes from the last two brackets on.
fn classes_in(alloc: Global, bytes: &[u8]) -> Result<(Vec<Vec<u32>>, &[u8]), StoreError> {
    let mut lists = Vec::new(alloc);
    let mut left = bytes;
    for _ in 0..bytes.len() {
        let (numbers, rest) = numbers_in(alloc, left)?;
        let list = narrowed(alloc, &numbers)?;
        lists.push(list)?;
        match behind(rest, b"],[") {
            Ok(next) => left = next,
            Err(_) => return Ok((lists, rest)),
        }
    }
    Err(StoreError::Fault(StoreFault::NotJson))
}

/// Appends the bytes before the next weights, with their key and bracket, and returns the bytes after these.
fn pass_to_weights<'b>(others: &mut Vec<u8>, bytes: &'b [u8]) -> Result<&'b [u8], StoreError> {
    let front = b"\"weights\":[";
    for i in 0..bytes.len() {
        if let Some(rest) = bytes[i..].strip_prefix(front) {
            others.extend_from_slice(&bytes[..i])?;
            others.extend_from_slice(front)?;
            return Ok(rest);
        }
    }
    Err(StoreError::Fault(StoreFault::NotJson))
}

/// Returns the class numbers, the weights, and the bytes without them.
pub fn lists_in(alloc: Global, bytes: &[u8]) -> Result<Lists, StoreError> {
    let front = b"{\"classes\":[[";
    let mut others = Vec::from_slice(alloc, front)?;
    let rest = behind(bytes, front)?;
    let (classes, rest) = classes_in(alloc, rest)?;
    let rest = pass_to_weights(&mut others, rest)?;
    let (one, rest) = numbers_in(alloc, rest)?;
    let rest = pass_to_weights(&mut others, rest)?;
    let (two, rest) = numbers_in(alloc, rest)?;
    others.extend_from_slice(rest)?;
    Ok(Lists {
        classes,
        one,
        two,
        others,
    })
}
