//! Writing the lines of the values of the raw signals of round 1.

ghost use Rattle.std.specs.Prelude.{◌≡◌, ◌++◌, ◌<◌, IfOk, OnOk, length, map, string_bytes};
ghost use Rattle.gs_raw_commands.specs.Judging.{hand_line, hands_text as text_of_hands};
ghost use Rattle.gs_model.specs.Signals.{signals as signals_in};
ghost use Rattle.gs_strategy.specs.Views.{parts_of};
ghost use Rattle.gs_tree.specs.Trees.{deck_of, rules_of};

use gs_frac::{Fraction, push_line};
use gs_tree::Signals;
use std::alloc::{AllocError, Global};

// Adds the line of a raw signal of round 1, with its value.
fn push_hand(
    text: &mut String,
    alloc: Global,
    signals: &Signals,
    signal: u32,
    value: &Fraction,
) -> Result<(), AllocError>
    requires { signal < length (signals_in (rules_of signals.now) 1) }
    ensures { OnOk result (string_bytes text.new ≡ string_bytes text.old
        ++ hand_line (deck_of signals.now) (rules_of signals.now) signal (parts_of value.now)) }
{
    // called only for what its contract says
    let _rounds = signals.rounds();
    text.push_str("hand ")?;
    push_line(text, signals.text(alloc, 1, signal)?.as_str(), value)
}

// Returns the lines of all raw signals of round 1, with their values.
fn hands_text(alloc: Global, signals: &Signals, values: &[Fraction]) -> Result<String, AllocError>
    requires { length values.now ≡ length (signals_in (rules_of signals.now) 1) }
    ensures { IfOk result (λ t. string_bytes t ≡ text_of_hands (deck_of signals.now) (rules_of signals.now) (map parts_of values.now)) }
{
    let _rounds = signals.rounds();
    let mut text = String::new(alloc);
    for signal in 0..signals.count(1) {
        let value = &values[signal as usize];
        push_hand(&mut text, alloc, signals, signal, value)?;
    }
    Ok(text)
}

/// Adds the lines of all raw signals of round 1, with their values.
pub(crate) fn push_hands(
    text: &mut Vec<u8>,
    alloc: Global,
    signals: &Signals,
    values: &[Fraction],
) -> Result<(), AllocError>
    requires { length values.now ≡ length (signals_in (rules_of signals.now) 1) }
    ensures { OnOk result (text.new.items ≡ text.old.items ++ text_of_hands (deck_of signals.now) (rules_of signals.now) (map parts_of values.now)) }
{
    let lines = hands_text(alloc, signals, values)?;
    text.extend_from_slice(lines.as_str().as_bytes())?;
    Ok(())
}
