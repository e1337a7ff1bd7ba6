//! The sequence form of a game over classes of its signals, and plans in it given by texts.

ghost use Rattle.std.specs.Prelude.{◌≤◌, ◌<◌, IfOk};
ghost use Rattle.gs_seq.specs.{Abstracts.{abstract_frame, lists_of}, Plans.{IsPlanOf}};

use gs_game::ValidGame;
use gs_lossless::{CheckStop, Lossless, check};
use gs_samples::{classes_of, game_of, numbers_in};
use gs_seq::{Abstract, Plan};
use gs_tree::Signals;
use std::alloc::Global;
use std::fmt::Debug;
use std::test::Fail;

/// Fails, naming the row, if the value found for a row is not the expected one.
pub(crate) fn agree<T: PartialEq + Debug + Drop>(
    alloc: Global,
    found: T,
    want: T,
    row: &str,
) -> Result<(), Fail> {
    if found == want {
        return Ok(());
    }
    Err(Fail::new(format!(in alloc; "{found:?} in place of {want:?} at {row}")?))
}

/// Returns what `say` returns for the signals of a checked game.
fn over_checked<R, F: FnOnce(&Signals<'_>) -> Result<R, Fail> + Drop>(
    alloc: Global,
    game: &ValidGame,
    say: F,
) -> Result<R, Fail>
    requires { F.IsAlwaysCallable say }
{
    let signals = Signals::of(alloc, game)?;
    say(&signals)
}

/// Returns what `say` returns for the signals of a game, which `gs_samples` reads.
pub(crate) fn over_game<R, F: FnOnce(&Signals<'_>) -> Result<R, Fail> + Drop>(
    alloc: Global,
    game: &str,
    say: F,
) -> Result<R, Fail>
    requires { F.IsAlwaysCallable say }
{
    let game = game_of(alloc, game)?;
    over_checked(alloc, &game, say)
}

/// Returns what `say` returns for the sequence form over lossless classes.
fn over_lossless<R, F: FnOnce(&Abstract<'_>) -> Result<R, Fail> + Drop>(
    alloc: Global,
    lossless: &Lossless<'_>,
    say: F,
) -> Result<R, Fail>
    requires { F.IsAlwaysCallable say }
{
    let form = Abstract::of(alloc, lossless)?;
    say(&form)
}

/// Returns the failure of a test whose classes are not lossless.
pub(crate) fn not_lossless(_: CheckStop) -> Fail {
    Fail::from("the classes are not lossless")
}

/// Returns what `say` returns for the sequence form over classes of these signals.
fn over_signals<R, F: FnOnce(&Abstract<'_>) -> Result<R, Fail> + Drop>(
    alloc: Global,
    signals: &Signals<'_>,
    classes: &str,
    say: F,
) -> Result<R, Fail>
    requires { F.IsAlwaysCallable say }
{
    let classes = classes_of(alloc, signals, classes)?;
    let lossless = check(alloc, signals, &classes).map_err(not_lossless)?;
    over_lossless(alloc, &lossless, say)
}

/// Returns what `say` returns for the sequence form of a game over classes of its signals; `gs_samples` reads both.
pub(crate) fn over_form<R, F: FnOnce(&Abstract<'_>) -> Result<R, Fail> + Drop>(
    alloc: Global,
    game: &str,
    classes: &str,
    say: F,
) -> Result<R, Fail>
    requires { F.IsAlwaysCallable say }
{
    over_game(alloc, game, |signals| {
        over_signals(alloc, signals, classes, say)
    })
}

/// Returns a player's plan from its total and its weights; the word `first` in place of weights stands for the first move everywhere.
pub(crate) fn plan_in(
    alloc: Global,
    form: &Abstract<'_>,
    player: u8,
    total: &str,
    weights: &str,
) -> Result<Plan, Fail>
    requires some { 0 < player }
    requires two { player ≤ 2 }
    ensures { IfOk result (IsPlanOf (abstract_frame form.now) (lists_of form.now) player) }
{
    if weights == "first" {
        return Ok(form.first_plan(alloc, player)?);
    }
    let weights = numbers_in::<u64>(alloc, weights)?;
    Ok(form.plan(player, total.parse::<u64>()?, weights)?)
}
