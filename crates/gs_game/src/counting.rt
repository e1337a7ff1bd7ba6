//! Counts sequences of groups of cards.

ghost use Rattle.std.specs.Prelude.{◌≡◌, ◌≤◌, ◌<◌, ◌↔◌, EachIndex, IsTrue, count_by, min, length, nat_lt, slice_index, sum_by};
ghost use Rattle.gs_model.specs.Cards.{groups_above, groups_with, left_after};
ghost use Rattle.gs_game.specs.Sequences.{count_sequences};

/// Returns the number of kinds that have copies left.
fn kinds_left(left: &[u8]) -> u64
    ensures { result ≡ count_by (λ copies. nat_lt 0 copies) left.now }
{
    left.iter().filter(|copies| **copies > 0).count() as u64
}

/// Returns whether groups of these sizes have no cards.
fn take_nothing(sizes: &[u8]) -> bool
    ensures { IsTrue result ↔ EachIndex sizes.now (λ k. slice_index sizes.now k ≡ 0) }
{
    sizes.iter().all(|size| *size == 0)
}

/// Returns the number of sequences of a group and then groups of the later sizes, `cap` if there are more. The group has `size` cards of the kinds from
/// `least` on.
#[cycle(counter)]
fn count_from(left: &mut [u8], least: usize, size: u8, later: &[u8], cap: u64) -> u64
    requires { least ≤ length left.old }
    ensures count { result ≡ min (sum_by (λ g. count_sequences (left_after left.old g) later.now) (groups_above size left.old least)) cap }
    ensures kept { left.new ≡ left.old }
{
    if size == 0 {
        return match later {
            [next, rest @ ..] => count_from(left, 0, *next, rest, cap),
            [] => cap.min(1),
        };
    }
    if size == 1 && take_nothing(later) {
        return cap.min(kinds_left(&left[least..]));
    }
    let mut total = 0;
    for card in least..left.len() {
        total += count_with(left, card, size - 1, later, cap - total);
        if total >= cap {
            return cap;
        }
    }
    total
}

/// Returns the number of sequences of a group and then groups of the later sizes, `cap` if there are more. The group has this first card and `size` others.
#[cycle(counter)]
fn count_with(left: &mut [u8], card: usize, size: u8, later: &[u8], cap: u64) -> u64
    requires { card < length left.old }
    ensures count { result ≡ min (sum_by (λ g. count_sequences (left_after left.old g) later.now) (groups_with (groups_above size) left.old card)) cap }
    ensures kept { left.new ≡ left.old }
{
    if left[card] == 0 {
        return 0;
    }
    left[card] -= 1;
    let count = count_from(left, card, size, later, cap);
    left[card] += 1;
    count
}

/// Returns the number of sequences of groups of these sizes, `cap` if there are more. `left` is changed to count, and then restored.
pub fn count_sequences(left: &mut [u8], sizes: &[u8], cap: u64) -> u64
    ensures count { result ≡ min (count_sequences left.old sizes.now) cap }
    ensures kept { left.new ≡ left.old }
{
    count_from(left, 0, 0, sizes, cap)
}
