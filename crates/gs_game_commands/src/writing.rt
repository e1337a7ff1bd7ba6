//! Writing the text of a strategy.

ghost use Rattle.std.specs.Prelude.{IfOk};
ghost use Rattle.gs_seq.specs.{Abstracts.{abstract_frame, lists_of}, Plans.{IsPlanOf}, Stops.{IsSmall}};
ghost use Rattle.gs_game_commands.specs.{Settling.{file_game_in}, Texts.{IsSettledText}};

use gs_best::{Work, verdict};
use gs_seq::{Abstract, Plan};
use gs_strategy::write_strategy;
use std::alloc::{AllocError, Global};

/// Returns the text of the strategy of a game, its classes and two plans, with the value and gaps of these plans.
pub(crate) fn text_of(
    alloc: Global,
    form: &Abstract,
    one: &Plan,
    two: &Plan,
) -> Result<Vec<u8>, AllocError>
    requires small { IsSmall (abstract_frame form.now) (lists_of form.now) }
    requires one { IsPlanOf (abstract_frame form.now) (lists_of form.now) 1 one.now }
    requires two { IsPlanOf (abstract_frame form.now) (lists_of form.now) 2 two.now }
    ensures { IfOk result (λ text. IsSettledText (file_game_in form.now) (lists_of form.now) one.now two.now text.items) }
{
    let lossless = form.lossless();
    let signals = lossless.signals();
    let classes = lossless.classes();
    let mut work = Work::new(alloc, form)?;
    let found = verdict(form, one, two, &mut work);
    write_strategy(alloc, signals.game(), classes, one, two, &found)
}
