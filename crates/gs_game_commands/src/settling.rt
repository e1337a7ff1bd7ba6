//! The answer to what is asked of a game and the classes of a grouping.

ghost use Rattle.std.specs.Prelude.{◌≡◌};
ghost use Rattle.gs_file.specs.Views.{valid_view};
ghost use Rattle.gs_game_commands.specs.{Asked.{AnswersOf, says_asked, says_of}, Checking.{IsGrouping}, Settling.{OfGrouping, file_game_in}};
ghost use Rattle.gs_model.specs.Frame.{frame_of};
ghost use Rattle.gs_reply.specs.Replies.{Answers};
ghost use Rattle.gs_seq.specs.{Abstracts.{abstract_frame, lists_of}, Stops.{IsSmall}};
ghost use Rattle.gs_tree.specs.Trees.{rules_of};

use crate::asked::{Asked, Question};
use crate::checking::listed;
use crate::grouping::{classes_of, lossless_of};
use crate::paths::shown;
use crate::playing::played;
use crate::solving::solved;
use gs_filter::Classes;
use gs_game::ValidGame;
use gs_reply::{Stop, sequence_form, stated_game};
use gs_seq::Abstract;
use gs_tree::Signals;
use gs_words::Grouping;
use std::alloc::Global;

// Returns what is asked of a game in sequence form, or the refusal.
fn of_form(alloc: Global, asked: &Asked, form: &Abstract) -> Result<Vec<u8>, Stop>
    requires { IsSmall (abstract_frame form.now) (lists_of form.now) }
    ensures { Answers (says_asked asked.now (file_game_in form.now) (lists_of form.now)) result }
{
    match asked {
        Asked::Play(turns) => Ok(played(alloc, form, turns.count)?),
        Asked::Solve => solved(alloc, form),
        Asked::Path => shown(alloc, form),
    }
}

// Returns what is asked of a game over classes, or the refusal of classes that are not lossless or of a game that is too large.
fn of_classes(
    alloc: Global,
    asked: &Asked,
    signals: &Signals,
    classes: &Classes,
    grouping: Grouping,
) -> Result<Vec<u8>, Stop>
    requires parents { classes.now.parents ≡ (frame_of (rules_of signals.now)).parents }
    requires grouping { IsGrouping grouping (rules_of signals.now) classes.now.lists }
    ensures { Answers (OfGrouping grouping (says_asked asked.now) (valid_view signals.now.game.now)) result }
{
    let lossless = lossless_of(alloc, signals, classes, grouping)?;
    let form = sequence_form(alloc, &lossless)?;
    of_form(alloc, asked, &form)
}

// Returns the answer to a question about a game and the classes of a grouping, or the refusal.
fn with_classes(
    alloc: Global,
    question: &Question,
    signals: &Signals,
    classes: &Classes,
    grouping: Grouping,
) -> Result<Vec<u8>, Stop>
    requires parents { classes.now.parents ≡ (frame_of (rules_of signals.now)).parents }
    requires grouping { IsGrouping grouping (rules_of signals.now) classes.now.lists }
    ensures { Answers (says_of question.now grouping (valid_view signals.now.game.now)) result }
{
    match question {
        Question::Classes { summary } => listed(alloc, signals, classes, grouping, *summary),
        Question::Over(asked) => of_classes(alloc, asked, signals, classes, grouping),
    }
}

// Returns the answer to a question about a game and the classes that a grouping gives it, or the refusal.
fn of_game(
    alloc: Global,
    question: &Question,
    game: &ValidGame,
    grouping: Grouping,
) -> Result<Vec<u8>, Stop>
    ensures { Answers (says_of question.now grouping (valid_view game.now)) result }
{
    let signals = Signals::of(alloc, game)?;
    let classes = classes_of(alloc, &signals, grouping)?;
    with_classes(alloc, question, &signals, &classes, grouping)
}

/// Returns the answer to a question about the game that the bytes of a game file state and about the classes of a grouping; or the refusal.
pub(crate) fn settled(
    alloc: Global,
    question: &Question,
    bytes: &[u8],
    grouping: Grouping,
) -> Result<Vec<u8>, Stop>
    ensures { Answers (AnswersOf question.now grouping bytes.now) result }
{
    let game = stated_game(alloc, bytes)?;
    of_game(alloc, question, &game, grouping)
}
