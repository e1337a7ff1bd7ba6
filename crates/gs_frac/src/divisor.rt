//! Greatest common divisors and least common multiples.

ghost use Rattle.std.specs.{Prelude.{◌≡◌, ◌<◌, ◌≤◌, ◌^◌, MatchResult}, Int.{IsGcd}};
ghost use Rattle.gs_frac.specs.Gcd.{gcd_of, IsLcm};

/// Returns the greatest common divisor by Euclid's method; it is 0 for two zeros.
pub fn gcd(a: u128, b: u128) -> u128
    ensures divides { IsGcd a b result }
    ensures value { result ≡ gcd_of a b }
{
    let mut x = a;
    let mut y = b;
    while y != 0 {
        (x, y) = (y, x % y);
    }
    x
}

/// Returns the least common multiple: as `Ok` up to the limit, as `Err` above it.
pub fn lcm_within(a: u128, b: u128, limit: u128) -> Result<u128, u128>
    requires a_some { 0 < a }
    requires a_fits { a < 2 ^ 64 }
    requires b_some { 0 < b }
    requires b_fits { b < 2 ^ 64 }
    ensures { MatchResult result (λ m. IsLcm a b m × (m ≤ limit)) (λ m. IsLcm a b m × (limit < m)) }
{
    let multiple = a / gcd(a, b) * b;
    if multiple <= limit {
        Ok(multiple)
    } else {
        Err(multiple)
    }
}
