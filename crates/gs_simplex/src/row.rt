//! The arithmetic of one row in whole numbers. Products stay in place where they are narrow, and take 128 bits otherwise. A row is divided by its greatest
//! common divisor only where its numbers may be long.
//! Most rows are narrow, and finding divisors would be most of the cost.

ghost use Rattle.std.specs.Prelude.{◌≡◌, ◌≢◌, MatchBool, MatchResult, ℕ, ◌+◌, ◌*◌, ◌/◌, ◌<◌, ◌≤◌, ◌^◌, IsTrue, ℤ, pos, ◌-ℤ◌, ◌*ℤ◌, ◌<ℤ◌};
ghost use Rattle.std.specs.Prelude.{length, slice_index, unsigned_abs};
ghost use Prim.Native.Nat.{◌∣◌};
ghost use Rattle.std.specs.Int.{IsGcd};
ghost use Rattle.gs_simplex.specs.Rows.{IsNarrow};
ghost use Rattle.gs_simplex.specs.Numbers.{at, AreNarrowNumbers, AllAtMost, IsDivisor, IsShared, IsQuotient, HasWideQuotient, IsMultiple, IsDivided};
ghost use Rattle.gs_simplex.specs.Numbers.{IsNarrowMultiple, IsNarrowQuotient};
ghost use Rattle.gs_simplex.specs.{Numbers.{IsMixed, IsWideReduced}, Support.{IsSupport, IsChange}};

use crate::exact::{Divisor, short_gcd};
use gs_frac::gcd;

/// Numbers below this size are narrow.
pub(crate) const WIDE: u128 = 1 << 62;

// Rows whose numbers are all below this size are not divided.
const LONG: u64 = 1 << 30;

/// The pivot row, which clears `column` in the other rows. Its numbers are at most `most` in size, and 0 outside the first `count` places of `filled`.
/// Rows and columns count from 0.
#[derive(Clone, Copy)]
pub(crate) struct Lead<'a> {
    pub(crate) row: usize,
    pub(crate) numbers: &'a [i64],
    pub(crate) most: u64,
    pub(crate) column: usize,
    pub(crate) filled: &'a [u32],
    pub(crate) count: usize,
    pub(crate) ghost narrow: { AreNarrowNumbers numbers.now },
    pub(crate) ghost bound: { AllAtMost numbers.now most },
    pub(crate) ghost inside: { column < length numbers.now },
    pub(crate) ghost own: { pos 0 <ℤ at numbers.now column },
    pub(crate) ghost support: { IsSupport filled.now count (length numbers.now) (at numbers.now) (at numbers.now) },
}

// Lists the columns in which a row is not 0, and returns their number.
pub(crate) fn fill(row: &[i64], filled: &mut [u32]) -> usize
    requires small { length row.now ≤ 2 ^ 32 }
    requires narrow { AreNarrowNumbers row.now }
    requires room { length filled.old ≡ length row.now }
    ensures { IsSupport filled.new result (length row.now) (at row.now) (at row.now) }
{
    let mut count: usize = 0;
    for j in 0..row.len() {
        if row[j] == 0 {
            continue;
        }
        filled[count] = j as u32;
        count += 1;
    }
    count
}

// Returns a bound on the numbers of a row that is 0 outside the first `found` places: the greatest size.
pub(crate) fn greatest(row: &[i64], places: &[u32], found: usize) -> u64
    requires support { IsSupport places.now found (length row.now) (at row.now) (at row.now) }
    ensures { AllAtMost row.now result }
{
    let mut most: u64 = 0;
    for k in 0..found {
        most = most.max(row[places[k] as usize].unsigned_abs());
    }
    most
}

// Returns `number` over `by`, which divides it, for narrow numbers.
fn narrow_quotient(number: i64, by: u64) -> i64
    requires { IsNarrowMultiple number by }
    ensures { IsNarrowQuotient number by result }
{
    if number == 0 {
        return 0;
    }
    number / (by as i64)
}

// Returns `number` over `by`, which divides it, for narrow numbers. Takes the divisor's guess where there is one, and divides otherwise.
fn guessed_quotient(number: i64, by: u64, divisor: &Divisor) -> i64
    requires same { divisor.now.number ≡ pos by }
    requires multiple { IsNarrowMultiple number by }
    ensures { IsNarrowQuotient number by result }
{
    if number == 0 {
        return 0;
    }
    match divisor.quotient(number) {
        Some(quotient) => quotient,
        None => narrow_quotient(number, by),
    }
}

// Returns the greatest common divisor of `own`, which is above 0, and `far`.
fn shared(own: i64, far: i64) -> u64
    requires own { pos 0 <ℤ own }
    requires narrow { IsNarrow own }
    ensures some { 0 < result }
    ensures small { result < 2 ^ 62 }
    ensures of_own { result ∣ unsigned_abs own }
    ensures of_far { result ∣ unsigned_abs far }
{
    if own == 1 {
        return 1;
    }
    short_gcd(far.unsigned_abs(), own.unsigned_abs())
}

// Returns whether `own` times a number of at most `row` in size, less `far` times one of at most `lead`, is always narrow.
fn stays_narrow(own: i64, far: i64, row: u64, lead: u64) -> bool
    requires narrow_own { IsNarrow own }
    requires narrow_far { IsNarrow far }
    ensures { IsTrue result → unsigned_abs own * row + unsigned_abs far * lead < 2 ^ 62 }
{
    let first = u128::from(own.unsigned_abs()) * u128::from(row);
    let second = u128::from(far.unsigned_abs()) * u128::from(lead);
    first + second < WIDE
}

// Returns a bound on `own` times a number of at most `row` in size, less `far` times one of at most `lead`. The bound is below 2^62.
fn mixed_most(own: i64, far: i64, row: u64, lead: u64) -> u64
    requires { unsigned_abs own * row + unsigned_abs far * lead < 2 ^ 62 }
    ensures { result ≡ unsigned_abs own * row + unsigned_abs far * lead }
{
    own.unsigned_abs() * row + far.unsigned_abs() * lead
}

// Returns a bound on the numbers of a row: the known one, `top`, where all products stay narrow by it, and otherwise the greatest size.
fn known_or_greatest(
    row: &[i64],
    places: &[u32],
    found: usize,
    top: u64,
    own: i64,
    far: i64,
    lead: u64,
) -> u64
    requires narrow_own { IsNarrow own }
    requires narrow_far { IsNarrow far }
    requires support { IsSupport places.now found (length row.now) (at row.now) (at row.now) }
    requires bound { AllAtMost row.now top }
    ensures { AllAtMost row.now result }
{
    if stays_narrow(own, far, top, lead) {
        return top;
    }
    greatest(row, places, found)
}

// Returns `own` times `x` less `far` times `y`, where that stays narrow.
fn narrow_mixed_number(own: i64, x: i64, far: i64, y: i64) -> i64
    requires { unsigned_abs own * unsigned_abs x + unsigned_abs far * unsigned_abs y < 2 ^ 62 }
    ensures value { result ≡ own *ℤ x -ℤ far *ℤ y }
    ensures narrow { IsNarrow result }
{
    own * x - far * y
}

// Returns the places that change when a row becomes `own` times itself less `far` times the lead, and their number. Where `own` is 1 they are the lead's.
fn touched<'a>(lead: &Lead<'a>, own: i64, places: &'a [u32], found: usize) -> (&'a [u32], usize)
    ensures { let numbers = lead.now.numbers.now in (row : ℕ → ℤ) (far : ℤ) → IsSupport places.now found (length numbers) row (at numbers)
        → IsChange result.0.now result.1 (length numbers) row (at numbers) own far }
{
    if own == 1 {
        return (lead.filled, lead.count);
    }
    (places, found)
}

// Sets `row` to `own` times itself less `far` times `lead`, where that stays narrow and changes nothing outside the first `found` places.
fn mix_narrow(lead: &[i64], row: &mut [i64], places: &[u32], found: usize, own: i64, far: i64)
    requires same_length { length lead.now ≡ length row.old }
    requires change { IsChange places.now found (length row.old) (at row.old) (at lead.now) own far }
    requires narrow_lead { AreNarrowNumbers lead.now }
    requires narrow_row { AreNarrowNumbers row.old }
    requires narrow { (k : ℕ) → k < found →
        unsigned_abs own * unsigned_abs (at row.old (slice_index places.now k)) + unsigned_abs far * unsigned_abs (at lead.now (slice_index places.now k))
        < 2 ^ 62 }
    ensures mixed { (j : ℕ) → j < length row.old → at row.new j ≡ own *ℤ at row.old j -ℤ far *ℤ at lead.now j }
    ensures narrow { AreNarrowNumbers row.new }
{
    for k in 0..found {
        let j = places[k] as usize;
        row[j] = narrow_mixed_number(own, row[j], far, lead[j]);
    }
}

// Returns `own` times `x` less `far` times `y` in 128 bits.
fn mixed_number(own: i64, x: i64, far: i64, y: i64) -> i128
    requires narrow_own { IsNarrow own }
    requires narrow_x { IsNarrow x }
    requires narrow_far { IsNarrow far }
    requires narrow_y { IsNarrow y }
    ensures value { result ≡ own *ℤ x -ℤ far *ℤ y }
    ensures within { unsigned_abs result ≤ 2 ^ 125 }
{
    let first = i128::from(own) * i128::from(x);
    let second = i128::from(far) * i128::from(y);
    first - second
}

// Sets `mixed` to `own` times `row` less `far` times `lead`, number by number.
fn mix(lead: &[i64], row: &[i64], own: i64, far: i64, mixed: &mut [i128])
    requires same_length { length lead.now ≡ length row.now }
    requires room { length mixed.old ≡ length row.now }
    requires narrow_lead { AreNarrowNumbers lead.now }
    requires narrow_row { AreNarrowNumbers row.now }
    requires narrow_own { IsNarrow own }
    requires narrow_far { IsNarrow far }
    ensures mixed { (j : ℕ) → j < length row.now → at mixed.new j ≡ own *ℤ at row.now j -ℤ far *ℤ at lead.now j }
    ensures within { AllAtMost mixed.new (2 ^ 125) }
{
    for j in 0..row.len() {
        mixed[j] = mixed_number(own, row[j], far, lead[j]);
    }
}

// Returns the greatest common divisor of the divisor so far, 0 for none, and one more number.
fn common_divisor(found: u128, number: u128) -> u128
    ensures { IsGcd found number result }
{
    if number == 0 {
        return found;
    }
    let most = u128::from(u64::MAX);
    if found != 0 && found <= most && number <= most && number as u64 % found as u64 == 0 {
        return found;
    }
    gcd(found, number)
}

// Returns the greatest common divisor of `mixed`, 0 where all are 0.
fn divisor(mixed: &[i128]) -> u128
    requires { AllAtMost mixed.now (2 ^ 125) }
    ensures { IsDivisor (length mixed.now) (at mixed.now) result }
{
    let mut found: u128 = 0;
    for number in mixed {
        if found == 1 {
            return 1;
        }
        found = common_divisor(found, number.unsigned_abs());
    }
    found
}

// Returns the greatest common divisor of the divisor so far, 0 for none, and a narrow number other than 0.
fn narrow_common_divisor(found: Divisor, number: i64) -> Divisor
    requires some { number ≢ pos 0 }
    requires narrow { IsNarrow number }
    requires narrow_found { IsNarrow found.number }
    ensures divisor { IsGcd (unsigned_abs found.number) (unsigned_abs number) (unsigned_abs result.number) }
    ensures narrow { IsNarrow result.number }
{
    match found.quotient(number) {
        Some(_) => found,
        None => {
            let next = short_gcd(found.number.unsigned_abs(), number.unsigned_abs());
            Divisor::of(next as i64)
        }
    }
}

// Returns `number` over `by`, which divides it.
pub(crate) fn quotient(number: i128, by: u128) -> i128
    requires some { 0 < by }
    requires divides { by ∣ unsigned_abs number }
    requires within { unsigned_abs number ≤ 2 ^ 125 }
    requires small { by ≤ 2 ^ 125 }
    ensures value { number ≡ pos by *ℤ result }
    ensures small_result { unsigned_abs result ≤ 2 ^ 125 }
{
    if by == 1 {
        return number;
    }
    if number == 0 {
        return 0;
    }
    if by < WIDE && number.unsigned_abs() < WIDE {
        return i128::from(number as i64 / by as i64);
    }
    number / (by as i128)
}

// Sets `row` to `mixed` over `by`, number by number, up to a quotient that is not narrow. Returns whether there is none.
fn narrow_into(mixed: &[i128], by: u128, row: &mut [i64]) -> bool
    requires room { length mixed.now ≡ length row.old }
    requires some { 0 < by }
    requires small { by ≤ 2 ^ 125 }
    requires within { AllAtMost mixed.now (2 ^ 125) }
    requires divides { (j : ℕ) → j < length mixed.now → by ∣ unsigned_abs (at mixed.now j) }
    ensures { MatchBool result (IsQuotient by mixed.now row.new (length mixed.now)) (HasWideQuotient by mixed.now) }
{
    for j in 0..mixed.len() {
        let number = quotient(mixed[j], by);
        if number.unsigned_abs() >= WIDE {
            return false;
        }
        row[j] = number as i64;
    }
    true
}

// Returns the greatest common divisor of a narrow row that is 0 outside the first `found` places; 0 where all numbers are 0. It begins with the last place:
// in the program of a game the last columns are the slacks, whose numbers are small, so 1 is found soon.
fn narrow_divisor(row: &[i64], places: &[u32], found: usize) -> u64
    requires narrow { AreNarrowNumbers row.now }
    requires support { IsSupport places.now found (length row.now) (at row.now) (at row.now) }
    ensures { IsDivisor (length row.now) (at row.now) result }
{
    let mut common = Divisor::of(0);
    for k in 0..found {
        let number = row[places[found - 1 - k] as usize];
        if number == 0 {
            continue;
        }
        common = narrow_common_divisor(common, number);
        if common.number.unsigned_abs() == 1 {
            return 1;
        }
    }
    common.number.unsigned_abs()
}

// Divides each number of a row that is 0 outside the first `found` places by `by`, which divides it.
fn divide_all(row: &mut [i64], places: &[u32], found: usize, by: u64)
    requires some { 0 < by }
    requires small { by < 2 ^ 62 }
    requires narrow { AreNarrowNumbers row.old }
    requires support { IsSupport places.now found (length row.old) (at row.old) (at row.old) }
    requires divides { (j : ℕ) → j < length row.old → by ∣ unsigned_abs (at row.old j) }
    ensures { IsQuotient by row.old row.new (length row.old) }
{
    let divisor = Divisor::of(by as i64);
    for k in 0..found {
        let j = places[k] as usize;
        row[j] = guessed_quotient(row[j], by, &divisor);
    }
}

// Divides a row that is 0 outside the first `found` places by its greatest common divisor, and returns the divisor, at least 1.
pub(crate) fn divide_row(row: &mut [i64], places: &[u32], found: usize) -> u64
    requires some { 0 < length row.old }
    requires narrow { AreNarrowNumbers row.old }
    requires support { IsSupport places.now found (length row.old) (at row.old) (at row.old) }
    ensures divided { IsDivided (length row.old) (at row.old) (at row.new) }
    ensures narrow { AreNarrowNumbers row.new }
    ensures some { 0 < result }
    ensures bound { (most : ℕ) → AllAtMost row.old most → AllAtMost row.new (most / result) }
{
    let by = narrow_divisor(row, places, found);
    if by > 1 {
        divide_all(row, places, found, by);
        return by;
    }
    1
}

// Divides a row by its greatest common divisor if a number of it is `LONG` or more in size, and returns a bound on its numbers. For smaller numbers
// the division costs more than it saves. The numbers are at most `top` in size, and 0 outside the first `found` places.
fn lessen(row: &mut [i64], places: &[u32], found: usize, top: u64) -> u64
    requires some { 0 < length row.old }
    requires narrow { AreNarrowNumbers row.old }
    requires bound { AllAtMost row.old top }
    requires support { IsSupport places.now found (length row.old) (at row.old) (at row.old) }
    ensures multiple { IsMultiple (length row.old) (at row.old) (at row.new) }
    ensures narrow { AreNarrowNumbers row.new }
    ensures bound { AllAtMost row.new result }
{
    if top < LONG {
        return top;
    }
    let most = greatest(row, places, found);
    if most < LONG {
        return most;
    }
    let by = divide_row(row, places, found);
    most / by
}

// Returns both numbers over their greatest common divisor. The first is above 0.
fn multipliers(own: i64, far: i64) -> (i64, i64)
    requires own { pos 0 <ℤ own }
    requires narrow_own { IsNarrow own }
    requires narrow_far { IsNarrow far }
    ensures shared { IsShared own far result.0 result.1 }
    ensures narrow_own { IsNarrow result.0 }
    ensures narrow_far { IsNarrow result.1 }
{
    let by = shared(own, far);
    (narrow_quotient(own, by), narrow_quotient(far, by))
}

// Clears the lead's column of `row`: the lead's number there times the row, less the row's number there times the lead, over a common divisor. Returns a
// bound on the new numbers. If a number is not narrow even after division by the greatest common divisor, the error is that divisor, `mixed` has the
// numbers before the division, and the row is partly changed. The row's numbers are at most `top` in size. Row and lead are 0 outside the first `found`
// places.
pub(crate) fn reduce_row(
    lead: &Lead<'_>,
    row: &mut [i64],
    mixed: &mut [i128],
    places: &[u32],
    found: usize,
    top: u64,
) -> Result<u64, u128>
    requires support { IsSupport places.now found (length lead.now.numbers.now) (at row.old) (at lead.now.numbers.now) }
    requires long { length row.old ≡ length lead.now.numbers.now }
    requires room { length mixed.old ≡ length lead.now.numbers.now }
    requires narrow { AreNarrowNumbers row.old }
    requires bound { AllAtMost row.old top }
    ensures { MatchResult result
        (λ most. IsMixed (at lead.now.numbers.now) lead.now.column (length lead.now.numbers.now) (at row.old) (at row.new)
        × AreNarrowNumbers row.new × AllAtMost row.new most)
        (IsWideReduced (at lead.now.numbers.now) lead.now.column (length lead.now.numbers.now) (at row.old) mixed.new) }
{
    if row[lead.column] == 0 {
        return Ok(top);
    }
    let (own, far) = multipliers(lead.numbers[lead.column], row[lead.column]);
    let near = known_or_greatest(row, places, found, top, own, far, lead.most);
    if stays_narrow(own, far, near, lead.most) {
        let (changing, count) = touched(lead, own, places, found);
        mix_narrow(lead.numbers, row, changing, count, own, far);
        return Ok(lessen(row, places, found, mixed_most(own, far, near, lead.most)));
    }
    mix(lead.numbers, row, own, far, mixed);
    let by = divisor(mixed).max(1);
    if narrow_into(mixed, by, row) {
        return Ok(WIDE as u64);
    }
    Err(by)
}
