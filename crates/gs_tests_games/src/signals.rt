//! Raw signals and deals of whole games, compared with sums that a separate program took by the definitions.

use gs_game::ValidGame;
use gs_samples::{check_row, game_of, signal_text};
use gs_tree::Signals;
use std::alloc::{AllocError, Global};
use std::test::Fail;

/// A game; texts that no signal of its last round has, with a comma between two; and the expected text for the game. The text has the middle and the last
/// signal of the last round, then the number of deals, their weight, and a sum over all deals that changes if one deal does. It ends with the sum of the
/// last edges of all signals of the last round, and the strength of the middle one.
const CASES: &[(&str, &str, &str)] = &[
    (
        "JQK, s, high, 1 0 check",
        ",J,Jh,Qs/,QsKs",
        "Qs Ks deals 6 weight 6 mixed 676 edges 3 strength 1",
    ),
    (
        "JQK, sh, pair 2 2 1, 1 0 check, 0 1 check",
        "Qh,Qh/,Qh/Js,Qh/+Qh,Qh/+JsJh",
        "Qh/+Js Kh/+Ks deals 120 weight 120 mixed 177824 edges 30 strength 1",
    ),
    (
        "JQ, sh 2130, three 3 3 1, 2 0 check, 0 1 check",
        "QsJs/+Qs,JhJh/+Qs,JsQh/+Qs,JsQs/+Qs/",
        "JsQs/+Qs QsQs/+Qs deals 24 weight 180 mixed 109344 edges 20 strength 528448",
    ),
    (
        "JQKA, sh, three, 1 0 check, 0 1 check, 0 1 check",
        "Ks/+Js,Ks/+Js/,Ks/+Js/+Js,/+Js/+Jh",
        "Ks/+Js/+Jh Ah/+As/+Kh deals 1680 weight 1680 mixed 28271936 edges 336 strength 262272",
    ),
    (
        "JQ, s 33, pair 9 9 1, 1 2 check, 0 1 check",
        "Js+QsJs/+Js,Qs+JsJs,Qs+Js/+Js,Qs+QsQs/+Qs",
        "Qs+JsJs/+Js Qs+QsQs/+Js deals 14 weight 360 mixed 188928 edges 18 strength 1",
    ),
    (
        "23456, s, three 7 7 1, 1 2 check",
        "4s+5s3s,4s+3s,4s+3s4s,4s-3s5s",
        "4s+3s5s 6s+4s5s deals 60 weight 60 mixed 93032 edges 30 strength 1323008",
    ),
    (
        "TJQK, shdc, three 2 2 1, 1 0 check, 0 1 check, 0 1 check",
        "Ts/+Ts/+Jh,Ts/+Js,Ts/Js/Jh,tS/+Js/+Jh",
        "Qs/+Ts/+Th Kc/+Kd/+Kh deals 43680 weight 43680 mixed 7394375040 edges 3360 strength 262272",
    ),
];

/// Returns the number of deals, the weight of all, and a sum over all that changes if one deal does.
fn sums(signals: &Signals<'_>) -> (u64, u64, u64) {
    let mut count: u64 = 0;
    let mut weight: u64 = 0;
    let mut mix: u64 = 0;
    for deal in signals.deals() {
        count = count.wrapping_add(1);
        weight = weight.wrapping_add(deal.weight);
        let place = u64::from(deal.one)
            .wrapping_mul(7)
            .wrapping_add(u64::from(deal.two).wrapping_mul(3))
            .wrapping_add(1);
        let outcome = u64::from(deal.outcome.wrapping_add(10).unsigned_abs());
        mix = mix.wrapping_add(deal.weight.wrapping_mul(outcome).wrapping_mul(place));
    }
    (count, weight, mix)
}

/// Returns the sum of the last edges of all signals of the last round, and the strength of the middle one.
fn edges(signals: &Signals<'_>) -> (u64, u32) {
    let round = signals.rounds();
    let count = signals.count(round);
    let mut sum: u64 = 0;
    for signal in 0..count {
        sum = sum.wrapping_add(signals.edge(round, signal));
    }
    let middle = count / 2;
    let strength = if middle < count {
        signals.strength(middle)
    } else {
        0
    };
    (sum, strength)
}

/// Returns the text for the signals and deals of a game.
fn told(alloc: Global, signals: &Signals<'_>) -> Result<String, AllocError> {
    let round = signals.rounds();
    let count = signals.count(round);
    let middle = signal_text(alloc, signals, round, count / 2)?;
    let last = signal_text(alloc, signals, round, count.saturating_sub(1))?;
    let (deals, weight, mixed) = sums(signals);
    let (edges, strength) = edges(signals);
    format!(in alloc;
        "{middle} {last} deals {deals} weight {weight} mixed {mixed} edges {edges} strength {strength}"
    )
}

/// Returns whether a signal is there and its text names it.
fn is_named(
    alloc: Global,
    signals: &Signals<'_>,
    round: u8,
    signal: u32,
) -> Result<bool, AllocError> {
    let text = signal_text(alloc, signals, round, signal)?;
    let within = 0 < round && round <= signals.rounds();
    Ok(within && signals.index_of(round, text.as_str()) == Some(signal))
}

/// Returns whether texts name what they should: the first signal, and the middle and the last one of the last round, each by its own text. No text of
/// `nothing` may name a signal of the last round.
fn names(alloc: Global, signals: &Signals<'_>, nothing: &str) -> Result<bool, AllocError> {
    let round = signals.rounds();
    let count = signals.count(round);
    Ok(
        is_named(alloc, signals, 1, 0)?
            && is_named(alloc, signals, round, count / 2)?
            && is_named(alloc, signals, round, count.saturating_sub(1))?
            && nothing
                .split(',')
                .all(|text| signals.index_of(round, text).is_none()),
    )
}

/// Returns the text for signals and their deals, and whether the texts name what they should.
fn found(
    alloc: Global,
    signals: &Signals<'_>,
    nothing: &str,
) -> Result<(String, bool), AllocError> {
    let named = names(alloc, signals, nothing)?;
    Ok((told(alloc, signals)?, named))
}

/// Returns what `found` returns for the signals of a game.
fn found_of(alloc: Global, game: &ValidGame, nothing: &str) -> Result<(String, bool), AllocError> {
    let signals = Signals::of(alloc, game)?;
    found(alloc, &signals, nothing)
}

/// Returns what `found` returns for the signals of the game of a line.
fn found_in(alloc: Global, line: &str, nothing: &str) -> Result<(String, bool), Fail> {
    let game = game_of(alloc, line)?;
    Ok(found_of(alloc, &game, nothing)?)
}

#[test]
fn signals_and_deals(rt: HostRuntime) -> Result<(), Fail> {
    for &(line, nothing, said) in CASES {
        let (text, named) = found_in(rt.alloc(), line, nothing)?;
        check_row(rt.alloc(), line, text.as_str(), said)?;
        assert!(rt; named, "{line}");
    }
    Ok(())
}
