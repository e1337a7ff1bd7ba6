//! Reading the top of a game's description.

ghost use Rattle.std.specs.Prelude.{option_map};
ghost use Rattle.toml.specs.View.{view, table_view};
ghost use Rattle.gs_file.specs.{Answers.{Gives, MayGive}, Keys.{top_keys}, Tables.{only}};
ghost use Rattle.gs_file.specs.Reading.{version_of, version_at, copies_value, bonus_value, values_at, bonus_numbers, typed_at};
ghost use Rattle.gs_file.specs.Views.{values_view, top_view};

use crate::fault::{FileError, FileFault, Key};
use crate::fields::{
    check_only, required_at, text_of, text_or_none, top, value_at, whole_number_of,
};
use crate::form::Form;
use crate::lists::{tables_of, whole_numbers_of};
use crate::values::{TopFields, TopValues};
use crate::version::Version;
use std::alloc::Global;
use toml::{Table, Value};

fn version_by_number(form: Form, number: i64) -> Result<Version, FileFault>
    ensures { Gives (λ v. v) result (version_of form number) }
{
    match (form, number) {
        (Form::File | Form::Json(Version::One), 1) => Ok(Version::One),
        (Form::File | Form::Json(Version::Two), 2) => Ok(Version::Two),
        _ => Err(FileFault::BadVersion(number)),
    }
}

#[tactic(auto, unfolding(crate::specs::Reading::version_at))]
fn version(form: Form, table: &Table) -> Result<Version, FileFault>
    ensures { Gives (λ v. v) result (version_at form (table_view table.now)) }
{
    let value = required_at(form, table, top(Key::Version))?;
    let number = whole_number_of(value, top(Key::Version))?;
    version_by_number(form, number)
}

/// Checks that only keys of the version stand at the top: `bonus`, the last, in version 2 alone.
fn check_top_keys(form: Form, table: &Table, version: Version) -> Result<(), FileFault>
    ensures { Gives (λ v. v) result (only form (top_keys version) 0 (table_view table.now)) }
{
    let keys = [
        Key::Version,
        Key::Ranks,
        Key::Suits,
        Key::Copies,
        Key::Ranking,
        Key::Ante,
        Key::Round,
        Key::Bonus,
    ];
    match version {
        Version::One => check_only(form, table, &keys[..7], 0),
        Version::Two => check_only(form, table, &keys, 0),
    }
}

/// Returns the value of `copies`, which a game file may leave out.
fn copies_of(form: Form, table: &Table) -> Result<Option<&Value>, FileFault>
    ensures { Gives (option_map (λ v. view v.now)) result (copies_value form (table_view table.now)) }
{
    match form {
        Form::File => Ok(value_at(form, table, Key::Copies)),
        Form::Json(_) => {
            let value = required_at(form, table, top(Key::Copies))?;
            Ok(Some(value))
        }
    }
}

/// Returns the value of `bonus`, which version 2 has and version 1 has not.
fn bonus_of(form: Form, table: &Table, version: Version) -> Result<Option<&Value>, FileFault>
    ensures { Gives (option_map (λ v. view v.now)) result (bonus_value form version (table_view table.now)) }
{
    match version {
        Version::One => Ok(None),
        Version::Two => {
            let value = required_at(form, table, top(Key::Bonus))?;
            Ok(Some(value))
        }
    }
}

/// Returns the values at the top, or the first fault.
pub fn values_of(form: Form, table: &Table) -> Result<TopValues<'_>, FileFault>
    ensures { Gives values_view result (values_at form (table_view table.now)) }
{
    let version = version(form, table)?;
    check_top_keys(form, table, version)?;
    Ok(TopValues {
        ranks: required_at(form, table, top(Key::Ranks))?,
        suits: required_at(form, table, top(Key::Suits))?,
        copies: copies_of(form, table)?,
        ranking: required_at(form, table, top(Key::Ranking))?,
        bonus: bonus_of(form, table, version)?,
        ante: required_at(form, table, top(Key::Ante))?,
        rounds: required_at(form, table, top(Key::Round))?,
    })
}

fn bonus_typed(alloc: Global, bonus: Option<&Value>) -> Result<Option<Vec<i64>>, FileError>
    ensures { MayGive (option_map (λ v. v.items)) result (bonus_numbers (option_map (λ v. view v.now) bonus.entry)) }
{
    match bonus {
        None => Ok(None),
        Some(value) => {
            let numbers = whole_numbers_of(alloc, value, top(Key::Bonus))?;
            Ok(Some(numbers))
        }
    }
}

/// Returns the fields at the top, each of its type, or the first fault.
pub fn typed_of<'t>(alloc: Global, values: &TopValues<'t>) -> Result<TopFields<'t>, FileError>
    ensures { MayGive top_view result (typed_at (values_view values.now)) }
{
    let ranks = text_of(values.ranks, top(Key::Ranks))?;
    let suits = text_of(values.suits, top(Key::Suits))?;
    let copies = text_or_none(values.copies, top(Key::Copies))?;
    let ranking = text_of(values.ranking, top(Key::Ranking))?;
    let bonus = bonus_typed(alloc, values.bonus)?;
    let ante = whole_number_of(values.ante, top(Key::Ante))?;
    let rounds = tables_of(alloc, values.rounds, top(Key::Round))?;
    Ok(TopFields {
        ranks,
        suits,
        copies,
        ranking,
        bonus,
        ante,
        rounds,
    })
}
