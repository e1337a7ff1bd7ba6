//! Numbers in a text.

use std::alloc::{AllocError, Global};
use std::str::FromStr;

/// Returns the numbers of a text with a space between two. Words that are not numbers are skipped.
pub fn numbers_in<T: FromStr + Drop>(alloc: Global, text: &str) -> Result<Vec<T>, AllocError>
where
    T::Err: Drop,
{
    let mut all = Vec::new(alloc);
    for word in text.split(' ') {
        if let Ok(number) = word.parse::<T>() {
            all.push(number)?;
        }
    }
    Ok(all)
}
