//! What an end pays along a listed row, from the other player's numbers there.

ghost use Rattle.std.specs.Prelude.{◌≡◌, ◌-◌, ◌*◌, ◌<◌, ◌≤◌, ◌^◌, ◌*ℤ◌, length, pos, slice_index, unsigned_abs};
ghost use Rattle.gs_game.specs.Seen.{end_kind_of, end_of};
ghost use Rattle.gs_model.specs.Sums.{sum_z};
ghost use Rattle.gs_seq.specs.{Payoffs.{HasNumbers, chips_of, row_pays, stake, weight_of}, Rows.{IsSlim}};

use crate::numbers::plus;
use crate::pair::Pair;
use gs_game::{End, EndKind};

/// Returns the number of a class in a list with a number for each class.
pub(crate) fn number_of(numbers: &[u64], class: u32) -> u64
    requires some { 0 < class }
    requires within { class ≤ length numbers.now }
    ensures { result ≡ slice_index numbers.now (class - 1) }
{
    numbers[class as usize - 1]
}

/// Returns a number times a weight.
fn times(number: u64, weight: i64) -> i128
    requires few { number < 2 ^ 63 }
    requires fits { number * unsigned_abs weight < 2 ^ 127 }
    ensures { result ≡ pos number *ℤ weight }
{
    i128::from(number as i64) * i128::from(weight)
}

/// Returns the weight of a pair that counts at an end: at a fold the weight, at a showdown the signed weight.
pub(crate) fn weight_at(end: End, pair: Pair) -> i64
    ensures { result ≡ weight_of (end_kind_of end.kind) pair }
{
    match end.kind {
        EndKind::Folded1 | EndKind::Folded2 => i64::from(pair.weight),
        EndKind::Show => pair.signed,
    }
}

/// Returns the sum of the weights of a row that count at an end, each times the number of its class.
fn weights_along(end: End, row: &[Pair], numbers: &[u64]) -> i128
    requires slim { IsSlim row.now }
    requires numbers { HasNumbers numbers.now row.now }
    ensures value { result ≡ sum_z (λ p. pos (slice_index numbers.now (p.two - 1)) *ℤ weight_of (end_kind_of end.kind) p) row.now }
    ensures small { unsigned_abs result < 2 ^ 90 }
{
    let mut sum = 0i128;
    for pair in row {
        let number = number_of(numbers, pair.two);
        sum = plus(sum, times(number, weight_at(end, *pair)));
    }
    sum
}

/// Returns what a fold pays a player in chips: the player who folds loses what was put in, and the other wins it.
fn stake_of(player: u8, folder: u8, put: u16) -> i128
    ensures value { result ≡ stake player folder put }
    ensures small { unsigned_abs result ≤ 65535 }
{
    let chips = i128::from(put);
    if player == folder { -chips } else { chips }
}

/// Returns the chips that an end pays a player for a unit of the weight that counts there: at a fold the stake, at a showdown the chips put in.
pub(crate) fn chips_at(player: u8, end: End) -> i128
    ensures value { result ≡ chips_of player (end_kind_of end.kind) end.put }
    ensures small { unsigned_abs result ≤ 65535 }
{
    match end.kind {
        EndKind::Folded1 => stake_of(player, 1, end.put),
        EndKind::Folded2 => stake_of(player, 2, end.put),
        EndKind::Show => i128::from(end.put),
    }
}

/// Returns chips times a weight, or times a sum of weights.
pub(crate) fn chips_times(chips: i128, sum: i128) -> i128
    requires chips { unsigned_abs chips ≤ 65535 }
    requires sum { unsigned_abs sum < 2 ^ 90 }
    ensures { result ≡ chips *ℤ sum }
{
    chips * sum
}

/// Returns what an end pays a player in the deals of a row, each pair times the number of its class.
pub(crate) fn row_paid(player: u8, end: End, row: &[Pair], numbers: &[u64]) -> i128
    requires slim { IsSlim row.now }
    requires numbers { HasNumbers numbers.now row.now }
    ensures { result ≡ row_pays player (end_of end) numbers.now row.now }
{
    chips_times(chips_at(player, end), weights_along(end, row, numbers))
}
