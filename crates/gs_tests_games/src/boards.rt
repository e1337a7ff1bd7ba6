//! Payments to signals of the last round over their deals, compared with sums that a separate program took deal by deal.

ghost use Rattle.std.specs.Prelude.{◌≡◌, IfOk, length};
ghost use Rattle.gs_tree.specs.{Trees.{rules_of}, Walk.{last_count}};

use gs_boards::{BoardOrder, Pays};
use gs_game::ValidGame;
use gs_samples::{check_rows, game_of};
use gs_tree::Signals;
use std::alloc::{AllocError, Global};
use std::test::Fail;

/// Games, and the payments to their signals if each deal costs 3 chips, and at a showdown for 5. Given are that of the first signal, and a sum over all
/// signals that changes if one payment does. The order does not apply to two copies of a card, nor to two private cards.
const CASES: &[(&str, &str)] = &[
    (
        "JQK, s, high, 1 0 check",
        "fixed -162 -606 showdown -270 -310",
    ),
    (
        "JQK, sh, pair 2 9 1, 1 0 check, 0 1 check",
        "fixed -588 -235413 showdown 8820 92090",
    ),
    (
        "TJQK, shdc, three, 1 0 check, 0 1 check, 0 1 check",
        "fixed -1551 -10124836644 showdown 2270 1628922775",
    ),
    (
        "TJQK, shdc, three 2 7 1, 1 0 check, 0 1 check, 0 1 check",
        "fixed -1551 -10124836644 showdown 15890 11017360400",
    ),
    (
        "23456, s, three 3 4 1, 1 2 check",
        "fixed -186 -116658 showdown 280 223560",
    ),
    ("JQ, s 22, high, 1 0 check", "no order"),
    ("TJQKA, s, three, 1 0 check, 1 1 check", "no order"),
];

/// Returns a number for each of `count` signals.
fn numbers(alloc: Global, count: usize) -> Result<Vec<u64>, AllocError>
    ensures { IfOk result (λ v. length v.items ≡ count) }
{
    let mut all = Vec::with_capacity(alloc, count)?;
    for signal in 0..count as u64 {
        let mixed = signal.wrapping_mul(signal).wrapping_mul(7);
        all.push(signal.wrapping_mul(3).wrapping_add(mixed).wrapping_add(5) % 101)?;
    }
    Ok(all)
}

/// Returns the first of some sums, and a sum over all that changes if one of them does.
fn mixed(sums: &[i128]) -> (i128, i128) {
    let mut mix = 0i128;
    for (signal, sum) in sums.iter().enumerate() {
        mix = mix.wrapping_add(sum.wrapping_mul(signal as i128 + 1));
    }
    (sums.first().copied().unwrap_or(0), mix)
}

/// Returns the payments to the signals, as `mixed` gives them.
fn paid(
    alloc: Global,
    order: &BoardOrder<'_>,
    count: usize,
    pays: Pays,
) -> Result<(i128, i128), AllocError>
    requires { count ≡ last_count (rules_of order.now.signals.now) }
{
    let numbers = numbers(alloc, count)?;
    let mut sums = vec![in alloc; 1i128; count]?;
    order.deal_sums(pays, &numbers, &mut sums);
    Ok(mixed(&sums))
}

/// Returns the text of the payments to the signals of a game that has an order.
fn said(alloc: Global, order: &BoardOrder<'_>, count: usize) -> Result<String, AllocError>
    requires { count ≡ last_count (rules_of order.now.signals.now) }
{
    let (one, all) = paid(alloc, order, count, Pays::Fixed(-3))?;
    let (first, sum) = paid(alloc, order, count, Pays::Showdown(5))?;
    format!(in alloc; "fixed {one} {all} showdown {first} {sum}")
}

/// Returns the text of the payments to signals, or `no order`.
fn ordered(alloc: Global, signals: &Signals<'_>) -> Result<String, AllocError> {
    let count = signals.count(signals.rounds()) as usize;
    match BoardOrder::of(alloc, signals)? {
        Some(order) => said(alloc, &order, count),
        None => String::from_str(alloc, "no order"),
    }
}

/// Returns the text of the payments to the signals of a game.
fn told_of(alloc: Global, game: &ValidGame) -> Result<String, AllocError> {
    let signals = Signals::of(alloc, game)?;
    ordered(alloc, &signals)
}

/// Returns the text of the payments to the signals of the game of a line.
fn told(alloc: Global, line: &str) -> Result<String, Fail> {
    let game = game_of(alloc, line)?;
    Ok(told_of(alloc, &game)?)
}

#[test]
fn signals_are_paid(rt: HostRuntime) -> Result<(), Fail> {
    check_rows(rt.alloc(), CASES, told)
}
