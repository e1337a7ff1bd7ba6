//! Writing the lines of a path.

ghost use Rattle.std.specs.Prelude.{◌≡◌, ◌+◌, ◌++◌, IfOk, OnOk, string_bytes};
ghost use Rattle.gs_game_commands.specs.Paths.{path_text as text_of_path, turn_line, turn_lines};

use gs_frac::push_line;
use gs_simplex::{Path, Turn};
use std::alloc::{AllocError, Global};
use std::fmt::Write;

// Adds the line of a pivot.
fn push_turn(text: &mut String, number: usize, turn: Turn) -> Result<(), AllocError>
    ensures { OnOk result (string_bytes text.new ≡ string_bytes text.old ++ turn_line number turn) }
{
    let Turn { enter, leave } = turn;
    writeln!(text, "{number} enters {enter} leaves {leave}")
}

// Adds the lines of pivots, numbered from 1.
fn push_turns(text: &mut String, turns: &[Turn]) -> Result<(), AllocError>
    ensures { OnOk result (string_bytes text.new ≡ string_bytes text.old ++ turn_lines 0 turns.now) }
{
    for place in 0..turns.len() {
        push_turn(text, place + 1, turns[place])?;
    }
    Ok(())
}

/// Returns the lines of a path: the aim's value (the objective) after the opening, each pivot, and the aim's value at the end.
pub(crate) fn path_text(alloc: Global, path: &Path) -> Result<String, AllocError>
    ensures { IfOk result (λ text. string_bytes text ≡ text_of_path path.now) }
{
    let mut text = String::new(alloc);
    push_line(&mut text, "opening", &path.start)?;
    push_turns(&mut text, &path.turns)?;
    push_line(&mut text, "aim", &path.aim)?;
    Ok(text)
}
