//! Writing the texts of verdicts and mixtures.

ghost use Rattle.std.specs.Prelude.{◌≡◌, IfOk};
ghost use Rattle.gs_strategy.specs.Views.{numbers_of, parts_of};
ghost use Rattle.gs_reply.specs.VerdictText.{mix_text as text_of_mix, verdict_text as text_of_verdict};

use gs_frac::{Fraction, Verdict, push_line};
use gs_lift::Mixture;
use std::alloc::{AllocError, Global};
use std::fmt::Write;

/// Returns the value and the gaps of both players, a line each.
pub fn verdict_text(alloc: Global, verdict: &Verdict) -> Result<Vec<u8>, AllocError>
    ensures { IfOk result (λ text. text.items ≡ text_of_verdict (numbers_of verdict.now)) }
{
    let mut text = String::new(alloc);
    push_line(&mut text, "value", &verdict.value)?;
    push_line(&mut text, "gap1", &verdict.gap1)?;
    push_line(&mut text, "gap2", &verdict.gap2)?;
    Ok(text.into_bytes())
}

/// Returns each move of a mixture by its letter with its share, and then a gap, a line each.
pub fn mix_text(alloc: Global, mixture: &Mixture, gap: &Fraction) -> Result<Vec<u8>, AllocError>
    ensures { IfOk result (λ text. text.items ≡ text_of_mix mixture.now (parts_of gap.now)) }
{
    let mut text = String::new(alloc);
    for (letter, share) in mixture.pairs() {
        text.push(char::from(*letter))?;
        writeln!(text, " {share}")?;
    }
    push_line(&mut text, "gap", gap)?;
    Ok(text.into_bytes())
}
