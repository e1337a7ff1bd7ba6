//! Divisors, multiples and reduced fractions, worked by hand.

use gs_frac::{FracFault, Fraction, gcd, lcm_within};
use std::process::Abort;
use std::test::Fail;

/// Two numbers, and their greatest common divisor.
const DIVISORS: &[(u128, u128, u128)] = &[
    (0, 0, 0),
    (0, 5, 5),
    (18, 12, 6),
    (u128::MAX, u128::MAX, u128::MAX),
];

#[test]
fn divisors(rt: HostRuntime) {
    for &(a, b, want) in DIVISORS {
        assert_eq!(rt; gcd(a, b), want);
    }
}

#[test]
fn multiples_within_a_limit(rt: HostRuntime) {
    assert_eq!(rt; lcm_within(4, 6, 12), Ok(12));
    assert_eq!(rt; lcm_within(4, 6, 11), Err(12));
    assert_eq!(rt;
        lcm_within(18446744073709551615, 18446744073709551614, 0),
        Err(340282366920938463408034375210639556610)
    );
}

/// Compares a fraction with one that is read.
fn compare(rt: &impl Abort, found: Fraction, wanted: Fraction) {
    assert_eq!(rt; found, wanted);
}

#[test]
fn fractions_are_reduced(rt: HostRuntime) -> Result<(), Fail> {
    compare(&rt, Fraction::new(26, 24), Fraction::parse("13/12")?);
    compare(&rt, Fraction::new(-26, 24), Fraction::parse("-13/12")?);
    compare(&rt, Fraction::new(0, 5), Fraction::parse("0/1")?);
    compare(
        &rt,
        Fraction::new(i128::MAX, i128::MAX),
        Fraction::parse("1/1")?,
    );
    Ok(())
}

#[test]
fn texts_are_fractions(rt: HostRuntime) -> Result<(), Fail> {
    assert_eq!(rt;
        "13/12".parse::<Fraction>()?.to_text(rt.alloc())?.as_str(),
        "13/12"
    );
    assert_eq!(rt; Fraction::parse("26/24"), Err(FracFault::NotReduced));
    Ok(())
}
