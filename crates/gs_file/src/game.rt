//! Reading a whole game file.

ghost use Rattle.toml.specs.View.{table_view};
ghost use Rattle.gs_file.specs.{Answers.{Gives, MayGive}, Reading.{utf8_text, parsed_at, game_at, read_at}, Views.{valid_view}};

use crate::build::{checked, deck_of, rounds_built};
use crate::fault::{FileError, FileFault};
use crate::form::Form;
use crate::ranges::stated_of;
use crate::top::{typed_of, values_of};
use gs_game::{Game, ValidGame};
use std::alloc::Global;
use toml::Table;

fn text_of_bytes(bytes: &[u8]) -> Result<&str, FileFault>
    ensures { Gives (λ s. s.now) result (utf8_text bytes.now) }
{
    match std::str::from_utf8(bytes) {
        Ok(text) => Ok(text),
        Err(_) => Err(FileFault::NotText),
    }
}

fn document_of(alloc: Global, text: &str) -> Result<Table, FileError>
    ensures { MayGive (λ t. table_view t) result (parsed_at text.now) }
{
    match toml::table_from_str(alloc, text) {
        Ok(table) => Ok(table),
        Err(error) if error.is_memory() => Err(FileError::Memory),
        Err(_) => Err(FileError::Fault(FileFault::NotToml)),
    }
}

/// Returns the game that a table states, or its first fault.
pub fn game_of(alloc: Global, form: Form, table: &Table) -> Result<ValidGame, FileError>
    ensures { MayGive valid_view result (game_at form (table_view table.now)) }
{
    let values = values_of(form, table)?;
    let fields = typed_of(alloc, &values)?;
    let stated = stated_of(alloc, form, &fields)?;
    let deck = deck_of(alloc, fields.ranks, fields.suits, fields.copies)?;
    let rounds = rounds_built(alloc, &stated.rounds)?;
    checked(
        alloc,
        Game {
            deck,
            ranking: stated.ranking,
            bonus: stated.bonus,
            ante: stated.ante,
            rounds,
        },
    )
}

/// Returns the game that the bytes of a game file state, or their first fault.
#[tactic(auto, unfolding(crate::specs::Reading::read_at))]
pub fn read_game(alloc: Global, bytes: &[u8]) -> Result<ValidGame, FileError>
    ensures { MayGive valid_view result (read_at bytes.now) }
{
    let text = text_of_bytes(bytes)?;
    let table = document_of(alloc, text)?;
    game_of(alloc, Form::File, &table)
}
