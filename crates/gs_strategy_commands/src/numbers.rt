//! Comparing stated numbers with computed ones.

ghost use Rattle.std.specs.Prelude.{◌≡◌, ◌↔◌, IsTrue, MatchOption};
ghost use Rattle.gs_strategy_commands.specs.Troubles.{IsFirstWrong};
ghost use Rattle.gs_strategy.specs.Views.{numbers_of, parts_of};

use gs_frac::{Fraction, Verdict};
use gs_reply::WrongNumber;

// Returns whether two fractions have the same numerator and the same denominator.
fn are_same(one: &Fraction, two: &Fraction) -> bool
    ensures { IsTrue result ↔ (parts_of one.now ≡ parts_of two.now) }
{
    one.num == two.num && one.den == two.den
}

// Returns a number with its name.
fn named(name: &'static str, stated: &Fraction, found: &Fraction) -> WrongNumber
    ensures name { result.name.now ≡ name.entry.now }
    ensures stated { parts_of result.stated ≡ parts_of stated.now }
    ensures found { parts_of result.found ≡ parts_of found.now }
{
    WrongNumber {
        name,
        stated: *stated,
        found: *found,
    }
}

/// Returns the first of the three stated numbers that differs from the computed one.
pub(crate) fn first_wrong(stated: &Verdict, found: &Verdict) -> Option<WrongNumber>
    ensures { MatchOption result (numbers_of stated.now ≡ numbers_of found.now)
        (λ w. IsFirstWrong (numbers_of stated.now) (numbers_of found.now) w.name.now (parts_of w.stated) (parts_of w.found)) }
{
    if !are_same(&stated.value, &found.value) {
        return Some(named("value", &stated.value, &found.value));
    }
    if !are_same(&stated.gap1, &found.gap1) {
        return Some(named("gap1", &stated.gap1, &found.gap1));
    }
    if !are_same(&stated.gap2, &found.gap2) {
        return Some(named("gap2", &stated.gap2, &found.gap2));
    }
    None
}
