//! Writing the class text.

ghost use Rattle.std.specs.{Prelude.{◌≡◌, ◌≤◌, ◌<◌, ◌-◌, ◌++◌, IfOk, OnOk, length, map, string_bytes}, List.{zip}};
ghost use Rattle.gs_model.specs.{Classes.{IsClass, list_of}, Game.{round_count}, Signals.{signal_at, signals as signals_in}};
ghost use Rattle.gs_tree.specs.{Texts.{signal_text}, Trees.{rules_of, deck_of}};
ghost use Rattle.gs_filter.specs.Members.{AreNextMembers};
ghost use Rattle.gs_text.specs.ClassText.{AreListsOf, begin_line, class_line, round_line, round_text, signal_texts as texts_of_signals};
ghost use Rattle.gs_text.specs.ClassText.{class_text as text_of_classes};

use gs_filter::{Classes, next_members};
use gs_tree::Signals;
use std::alloc::{AllocError, Global};
use std::fmt::Write;

// Adds the line of a round, with its numbers of classes and signals.
#[tactic(auto, unfolding(crate::specs::ClassText::round_line))]
pub(crate) fn push_round_line(
    text: &mut String,
    round: u8,
    classes: u32,
    signals: u32,
) -> Result<(), AllocError>
    ensures { OnOk result (string_bytes text.new ≡ string_bytes text.old ++ round_line round classes signals) }
{
    writeln!(text, "round {round} classes {classes} signals {signals}")
}

// Returns the texts of the signals of a round, in order.
fn signal_texts(alloc: Global, signals: &Signals, round: u8) -> Result<Vec<String>, AllocError>
    requires some { 0 < round }
    requires last { round ≤ round_count (rules_of signals.now) }
    ensures { IfOk result (λ texts. map string_bytes texts.items ≡ texts_of_signals (deck_of signals.now) (rules_of signals.now) round) }
{
    let count = signals.count(round);
    let mut texts = Vec::with_capacity(alloc, count as usize)?;
    for signal in 0..count {
        texts.push(signals.text(alloc, round, signal)?)?;
    }
    Ok(texts)
}

// Returns the texts of the signals of the round before, and none in round 1.
fn texts_above(alloc: Global, signals: &Signals, round: u8) -> Result<Vec<String>, AllocError>
    requires last { round ≤ round_count (rules_of signals.now) }
    ensures { IfOk result (λ texts. 1 < round → map string_bytes texts.items ≡ texts_of_signals (deck_of signals.now) (rules_of signals.now) (round - 1)) }
{
    if round > 1 {
        return signal_texts(alloc, signals, round - 1);
    }
    Ok(Vec::new(alloc))
}

// Adds the text of a signal. `above` has the texts of the round before.
fn push_signal(
    alloc: Global,
    text: &mut String,
    signals: &Signals,
    round: u8,
    above: &[String],
    signal: u32,
) -> Result<(), AllocError>
    requires some { 0 < round }
    requires last { round ≤ round_count (rules_of signals.now) }
    requires above { 1 < round → map string_bytes above.now ≡ texts_of_signals (deck_of signals.now) (rules_of signals.now) (round - 1) }
    requires in_range { signal < length (signals_in (rules_of signals.now) round) }
    ensures { OnOk result (string_bytes text.new ≡ string_bytes text.old ++ signal_text (deck_of signals.now) (signal_at (rules_of signals.now) round signal)) }
{
    if round > 1 {
        let parents = signals.parents_in(round);
        let parent = parents[signal as usize] as usize;
        return signals.push_text_below(text, round, signal, above[parent].as_str());
    }
    let member = signals.text(alloc, round, signal)?;
    text.push_str(member.as_str())
}

// Adds the beginning of the line of a class: its number and a colon.
fn push_number(text: &mut String, class: u32) -> Result<(), AllocError>
    ensures { OnOk result (string_bytes text.new ≡ string_bytes text.old ++ begin_line class) }
{
    write!(text, "{class}:")
}

// Adds the line of a class, with its members in order. `nexts` has the next member of the class of each signal.
fn push_class(
    alloc: Global,
    text: &mut String,
    signals: &Signals,
    classes: &Classes,
    round: u8,
    above: &[String],
    nexts: &[u32],
    class: u32,
) -> Result<(), AllocError>
    requires lists { AreListsOf (rules_of signals.now) classes.now.lists }
    requires some { 0 < round }
    requires last { round ≤ round_count (rules_of signals.now) }
    requires above { 1 < round → map string_bytes above.now ≡ texts_of_signals (deck_of signals.now) (rules_of signals.now) (round - 1) }
    requires nexts { AreNextMembers classes.now.lists round nexts.now }
    requires class { IsClass classes.now.lists round class }
    ensures { OnOk result (string_bytes text.new ≡ string_bytes text.old
        ++ class_line (zip (texts_of_signals (deck_of signals.now) (rules_of signals.now) round) (list_of classes.now.lists round)) class) }
{
    push_number(text, class)?;
    let mut next = classes.first(round, class);
    while (next as usize) < nexts.len() {
        text.push_str(" ")?;
        push_signal(alloc, text, signals, round, above, next)?;
        next = nexts[next as usize];
    }
    text.push_str("\n")?;
    Ok(())
}

// Adds the text of a round of the classes.
fn push_round(
    alloc: Global,
    text: &mut String,
    signals: &Signals,
    classes: &Classes,
    round: u8,
) -> Result<(), AllocError>
    requires lists { AreListsOf (rules_of signals.now) classes.now.lists }
    requires some { 0 < round }
    requires last { round ≤ round_count (rules_of signals.now) }
    ensures { OnOk result (string_bytes text.new ≡ string_bytes text.old
        ++ round_text round (texts_of_signals (deck_of signals.now) (rules_of signals.now) round) (list_of classes.now.lists round)) }
{
    let count = classes.classes(round);
    push_round_line(text, round, count, signals.count(round))?;
    let above = texts_above(alloc, signals, round)?;
    let nexts = next_members(alloc, classes, round)?;
    for index in 0..count {
        push_class(
            alloc,
            text,
            signals,
            classes,
            round,
            &above,
            &nexts,
            index + 1,
        )?;
    }
    Ok(())
}

/// Returns the class text: for each round a line with its numbers of classes and signals, and a
/// line for each class with its members.
/// The lines are written one after another: a text for each would take 2.5 times the instructions.
pub fn class_text(alloc: Global, signals: &Signals, classes: &Classes) -> Result<String, AllocError>
    requires { AreListsOf (rules_of signals.now) classes.now.lists }
    ensures { IfOk result (λ text. string_bytes text ≡ text_of_classes (deck_of signals.now) (rules_of signals.now) classes.now.lists) }
{
    let mut text = String::new(alloc);
    for index in 0..signals.rounds() {
        push_round(alloc, &mut text, signals, classes, index + 1)?;
    }
    Ok(text)
}
