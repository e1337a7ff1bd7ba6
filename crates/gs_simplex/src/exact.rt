//! Exact quotients without division. An inverse modulo 2^64 gives a guess, which counts only if its product with the divisor is the number.

ghost use Rattle.std.specs.{Prelude.{◌≡◌, ◌*ℤ◌}, Int.{IsGcd}, Option.{ForSome}};

/// A divisor, with the shift and the inverse that guess quotients by it.
#[derive(Clone, Copy)]
pub(crate) struct Divisor {
    pub(crate) number: i64,
    shift: u32,
    inverse: i64,
}

// Returns an odd number's inverse modulo 2^64, by Newton's method. It serves guesses alone.
fn inverse(odd: i64) -> i64 {
    let mut x = odd.wrapping_mul(3) ^ 2;
    for _ in 0..4 {
        x = x.wrapping_mul(2i64.wrapping_sub(odd.wrapping_mul(x)));
    }
    x
}

impl Divisor {
    // Returns this number as a divisor.
    pub(crate) fn of(number: i64) -> Divisor
        ensures { result.number ≡ number }
    {
        let shift = number.trailing_zeros();
        Divisor {
            number,
            shift,
            inverse: inverse(number.wrapping_shr(shift)),
        }
    }

    // Returns the quotient of `number`, if the guess is exact.
    pub(crate) fn quotient(&self, number: i64) -> Option<i64>
        ensures { ForSome result (λ q. number ≡ self.now.number *ℤ q) }
    {
        let guess = number.wrapping_shr(self.shift).wrapping_mul(self.inverse);
        let product = self.number.checked_mul(guess)?;
        if product != number {
            return None;
        }
        Some(guess)
    }
}

// Returns the greatest common divisor by Euclid's method; it is 0 for two zeros.
pub(crate) fn short_gcd(a: u64, b: u64) -> u64
    ensures { IsGcd a b result }
{
    let mut x = a;
    let mut y = b;
    while y != 0 {
        (x, y) = (y, x % y);
    }
    x
}
