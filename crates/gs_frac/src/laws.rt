//! Laws of fractions.

ghost use Rattle.std.specs.{Prelude.{◌≡◌, ◌*ℤ◌, ℕ, ℤ, IsTrue}, Int.{IsGcd}};
ghost use Rattle.gs_frac.specs.{Gcd.{gcd_of}, Texts.{is_fraction}};

/// Euclid's method gives the greatest common divisor of any two natural numbers.
pub fn gcd_is_greatest()
    ensures { (a b : ℕ) → IsGcd a b (gcd_of a b) }
{}

/// Two reduced fractions with equal cross products have equal parts, so `==` compares values.
pub fn reduced_form_is_one()
    ensures { (num den num' den' : ℤ) → IsTrue (is_fraction num den) → IsTrue (is_fraction num' den') → num *ℤ den' ≡ num' *ℤ den
        → (num ≡ num') × (den ≡ den') }
{}
