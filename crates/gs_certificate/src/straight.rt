//! The one text of a certificate, read straight: without a tree of values, and without a second text to compare it with.
//!
//! A certificate that is found here is right. Bytes that are not the text of a certificate are left to the checks in their order, and so is the text of a
//! certificate without numbers.

ghost use Rattle.std.specs.{Prelude.{◌≡◌, ◌≢◌, ◌++◌, ◌<◌, ◌≤◌, ◌^◌, All, IfOk, IfSome, get_or, length, true, unsigned_abs}, Fmt.{signed_decimal}};
ghost use Rattle.gs_frac.specs.Texts.{fraction_text, number_with_sign};
ghost use Rattle.serde_json.specs.Written.{compact_text};
ghost use Rattle.gs_certificate.specs.{Checks.{AreSmall}, Straight.{AreDigits, StandsFor}, Texts.{certificate_text as text_of, side_data}};
ghost use Rattle.gs_certificate.specs.Views.{certificate_view, fraction_parts};

use crate::certificate::Certificate;
use crate::numerals::number_of as wide_number;
use gs_frac::{Fraction, is_minus_zero, sign};
use std::alloc::{AllocError, Global};

/// Why a certificate is not read straight: memory ran out, or the bytes are not the text of bounds and numbers.
#[derive(Clone, Copy)]
pub(crate) enum StraightError {
    Memory,
    Fault,
}

impl<E: Into<AllocError> + Drop> From<E> for StraightError {
    fn from(_: E) -> StraightError {
        StraightError::Memory
    }
}

/// A player's part, and the bytes after it.
#[derive(Drop)]
struct Side<'b> {
    bound: Fraction,
    values: Vec<i128>,
    rest: &'b [u8],
}

/// Returns the bytes after the prefix `front`. It is an error if the bytes do not begin with it.
fn behind<'b>(bytes: &'b [u8], front: &[u8]) -> Result<&'b [u8], StraightError>
    ensures { IfOk result (λ rest. bytes.now ≡ front.now ++ rest.now) }
{
    match bytes.strip_prefix(front) {
        Some(rest) => Ok(rest),
        None => Err(StraightError::Fault),
    }
}

/// Returns the bytes before the first quote, and the bytes from the quote on.
fn to_quote(bytes: &[u8]) -> Result<(&[u8], &[u8]), StraightError>
    ensures { IfOk result (λ p. bytes.now ≡ p.0.now ++ p.1.now) }
{
    for (i, b) in bytes.iter().enumerate() {
        if *b == b'"' {
            return Ok((&bytes[..i], &bytes[i..]));
        }
    }
    Err(StraightError::Fault)
}

/// Returns the number that the first digits represent, and how many digits these are. It stops at the first other byte, or once the number is 10^17 or more.
fn digits_in(bytes: &[u8]) -> (u64, usize)
    ensures { AreDigits bytes.now result.0 result.1 }
{
    let mut size: u64 = 0;
    for (i, b) in bytes.iter().enumerate() {
        if *b < b'0' || *b > b'9' || size >= 100_000_000_000_000_000 {
            return (size, i);
        }
        size = size * 10 + u64::from(*b - b'0');
    }
    (size, bytes.len())
}

/// Returns whether these digits are the text of a number: at least one, without leading zeros.
fn is_plain(digits: &[u8], count: usize) -> bool
    requires { count ≤ length digits.now }
    ensures { result ≡ true → (0 < count) × (1 < count → get_or digits.now 0 0 ≢ 48) }
{
    match count {
        0 => false,
        1 => true,
        _ => digits[0] != b'0',
    }
}

/// Returns a whole number of at most 18 digits, from its sign and size.
fn narrow_number(negative: bool, size: u64) -> i128
    requires { size < 10 ^ 18 }
    ensures { result ≡ number_with_sign negative size }
{
    if negative {
        i128::from(-(size as i64))
    } else {
        i128::from(size as i64)
    }
}

/// Returns a number of at most 18 digits before the first quote, and the bytes from the quote on.
fn narrow_in(bytes: &[u8]) -> Option<(i128, &[u8])>
    ensures text { IfSome result (λ p. bytes.now ≡ signed_decimal p.0 ++ p.1.now) }
    ensures small { IfSome result (λ p. unsigned_abs p.0 < 2 ^ 90) }
{
    let (negative, digits) = sign(bytes);
    let (size, count) = digits_in(digits);
    if is_minus_zero(negative, u128::from(size)) {
        return None;
    }
    if !is_plain(digits, count) {
        return None;
    }
    let rest = &digits[count..];
    match rest {
        [b'"', ..] => Some((narrow_number(negative, size), rest)),
        _ => None,
    }
}

/// Returns a number of any width before the first quote, and the bytes from the quote on.
fn wide_in(bytes: &[u8]) -> Result<(i128, &[u8]), StraightError>
    ensures text { IfOk result (λ p. bytes.now ≡ signed_decimal p.0 ++ p.1.now) }
    ensures small { IfOk result (λ p. unsigned_abs p.0 < 2 ^ 90) }
{
    let (text, rest) = to_quote(bytes)?;
    match wide_number(text) {
        Some(number) => Ok((number, rest)),
        None => Err(StraightError::Fault),
    }
}

/// Returns the number before the first quote, and the bytes from the quote on.
fn number_in(bytes: &[u8]) -> Result<(i128, &[u8]), StraightError>
    ensures text { IfOk result (λ p. bytes.now ≡ signed_decimal p.0 ++ p.1.now) }
    ensures small { IfOk result (λ p. unsigned_abs p.0 < 2 ^ 90) }
{
    match narrow_in(bytes) {
        Some(found) => Ok(found),
        None => wide_in(bytes),
    }
}

/// Returns the numbers of an array, from the bytes after its first quote, and the bytes after the array.
fn numbers_in<'b>(alloc: Global, bytes: &'b [u8]) -> Result<(Vec<i128>, &'b [u8]), StraightError>
    ensures text { IfOk result (λ p. StandsFor bytes.now p.0.items p.1.now) }
    ensures small { IfOk result (λ p. All (λ z. unsigned_abs z < 2 ^ 90) p.0.items) }
{
    // With its quotes and comma each takes at least four bytes.
    let mut numbers = Vec::with_capacity(alloc, bytes.len() / 4)?;
    let mut left = bytes;
    for _ in 0..bytes.len() {
        let (number, rest) = number_in(left)?;
        numbers.push(number)?;
        match behind(rest, b"\",\"") {
            Ok(next) => left = next,
            Err(_) => return Ok((numbers, behind(rest, b"\"]")?)),
        }
    }
    Err(StraightError::Fault)
}

/// Returns the bound before the first quote, and the bytes from the quote on.
fn bound_in(bytes: &[u8]) -> Result<(Fraction, &[u8]), StraightError>
    ensures { IfOk result (λ p. bytes.now ≡ fraction_text p.0.num p.0.den ++ p.1.now) }
{
    let (text, rest) = to_quote(bytes)?;
    match std::str::from_utf8(text) {
        Ok(text) => match Fraction::parse(text) {
            Ok(bound) => Ok((bound, rest)),
            Err(_) => Err(StraightError::Fault),
        },
        Err(_) => Err(StraightError::Fault),
    }
}

/// Returns a player's part, and the bytes after it.
fn side_in<'b>(alloc: Global, bytes: &'b [u8]) -> Result<Side<'b>, StraightError>
    ensures text { IfOk result (λ s. bytes.now ≡ compact_text (side_data (record { bound = fraction_parts s.bound; values = s.values.items }))
        ++ s.rest.now) }
    ensures small { IfOk result (λ s. All (λ z. unsigned_abs z < 2 ^ 90) s.values.items) }
{
    let rest = behind(bytes, b"{\"bound\":\"")?;
    let (bound, rest) = bound_in(rest)?;
    let rest = behind(rest, b"\",\"values\":[\"")?;
    let (values, rest) = numbers_in(alloc, rest)?;
    let rest = behind(rest, b"}")?;
    Ok(Side {
        bound,
        values,
        rest,
    })
}

/// Returns the certificate whose text the bytes are.
pub(crate) fn straight(alloc: Global, bytes: &[u8]) -> Result<Certificate, StraightError>
    ensures text { IfOk result (λ c. bytes.now ≡ text_of (certificate_view c)) }
    ensures small { IfOk result AreSmall }
{
    let rest = behind(bytes, b"{\"player1\":")?;
    let one = side_in(alloc, rest)?;
    let rest = behind(one.rest, b",\"player2\":")?;
    let two = side_in(alloc, rest)?;
    let rest = behind(two.rest, b",\"version\":1}\n")?;
    if !rest.is_empty() {
        return Err(StraightError::Fault);
    }
    Ok(Certificate {
        bound1: one.bound,
        values1: one.values,
        bound2: two.bound,
        values2: two.values,
    })
}
