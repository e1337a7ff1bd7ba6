//! Writing the summary of classes.

ghost use Rattle.std.specs.Prelude.{◌≡◌, ◌++◌, IfOk, OnOk, string_bytes};
ghost use Rattle.gs_tree.specs.Trees.{rules_of};
ghost use Rattle.gs_text.specs.ClassText.{AreListsOf, deals_line, summary_text as text_of_summary};

use crate::classes::push_round_line;
use gs_filter::Classes;
use gs_tree::Signals;
use std::alloc::{AllocError, Global};
use std::fmt::Write;

// Adds the line of the deals, with their number and their weight.
#[tactic(auto, unfolding(crate::specs::ClassText::deals_line))]
fn push_deals_line(text: &mut String, deals: u32, weight: u64) -> Result<(), AllocError>
    ensures { OnOk result (string_bytes text.new ≡ string_bytes text.old ++ deals_line deals weight) }
{
    writeln!(text, "deals {deals} weight {weight}")
}

/// Returns the summary of classes: a line with the number and the weight of all deals, and for each round a line with its numbers of classes and signals.
pub fn summary_text(
    alloc: Global,
    signals: &Signals,
    classes: &Classes,
) -> Result<String, AllocError>
    requires { AreListsOf (rules_of signals.now) classes.now.lists }
    ensures { IfOk result (λ text. string_bytes text ≡ text_of_summary (rules_of signals.now) classes.now.lists) }
{
    let mut text = String::new(alloc);
    let game = signals.game();
    push_deals_line(&mut text, game.deal_count(), game.weight())?;
    for index in 0..signals.rounds() {
        let round = index + 1;
        push_round_line(
            &mut text,
            round,
            classes.classes(round),
            signals.count(round),
        )?;
    }
    Ok(text)
}
