//! The best of the worths so far, and their sum, class by class.

ghost use Rattle.std.specs.Prelude.{◌≡◌, ◌==◌, ◌<◌, ◌≤◌, ◌^◌, ◌+ℤ◌, ℕ, pos, length, get_or, slice_index, unsigned_abs, if◌then◌else◌};
ghost use Rattle.gs_best.specs.Rows.{AreWorthsAdded, AreRaised, raises};

use gs_seq::plus;

/// Returns whether a worth replaces the best so far: it is the first move's, or greater.
fn is_raised(choice: u8, best: i128, worth: i128) -> bool
    ensures { result ≡ raises choice best worth }
{
    choice == 0 || best < worth
}

/// Returns a sum plus one more worth. The first move's worth begins the sum.
fn added(choice: u8, sum: i128, worth: i128) -> i128
    requires { 0 < choice → unsigned_abs (sum +ℤ worth) < 2 ^ 127 }
    ensures { result ≡ (if choice == 0 then worth else (sum +ℤ worth)) }
{
    if choice == 0 { worth } else { plus(sum, worth) }
}

/// For each of the first `count` classes, replaces the best and its move by the worth and `choice` if the worth is greater.
/// The first move's worths always replace the best.
pub fn raise(worths: &[i128], choice: u8, count: usize, best: &mut [i128], moves: &mut [u8])
    requires worths { count ≤ length worths.now }
    requires best { count ≤ length best.old }
    requires moves { count ≤ length moves.old }
    ensures raised { AreRaised count choice worths.now best.old best.new moves.old moves.new }
    ensures best_behind { (k : ℕ) → count ≤ k → get_or best.new k (pos 0) ≡ get_or best.old k (pos 0) }
    ensures moves_behind { (k : ℕ) → count ≤ k → slice_index moves.new k ≡ slice_index moves.old k }
{
    for class in 0..count {
        if is_raised(choice, best[class], worths[class]) {
            best[class] = worths[class];
            moves[class] = choice;
        }
    }
}

/// Adds, for each of the first `count` classes, the worth to the sum. The first move's worths begin the sums.
pub fn add(worths: &[i128], choice: u8, count: usize, sums: &mut [i128])
    requires worths { count ≤ length worths.now }
    requires sums { count ≤ length sums.old }
    requires fits { (k : ℕ) → k < count → 0 < choice → unsigned_abs (get_or sums.old k (pos 0) +ℤ get_or worths.now k (pos 0)) < 2 ^ 127 }
    ensures added { AreWorthsAdded count choice worths.now sums.old sums.new }
    ensures behind { (k : ℕ) → count ≤ k → get_or sums.new k (pos 0) ≡ get_or sums.old k (pos 0) }
{
    for class in 0..count {
        sums[class] = added(choice, sums[class], worths[class]);
    }
}
