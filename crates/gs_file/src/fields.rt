//! Reading the values of a table by key and type.

ghost use Rattle.std.specs.{Prelude.{◌≡◌, string_bytes, option_map}, List.{list_all}, BTreeMap.{keys}};
ghost use Rattle.toml.specs.{Data.{get_member}, View.{view, table_view, array_view}};
ghost use Rattle.gs_file.specs.{Answers.{Gives}, Keys.{key_in, is_among, has_only, top as top_place}};
ghost use Rattle.gs_file.specs.Tables.{required, only, whole_number, text, text_or_empty, table_in, array_in};

use crate::fault::{FileFault, Key, Place};
use crate::form::Form;
use toml::value::Array;
use toml::{Table, Value};

/// Returns the place of a key outside the rounds.
pub const fn top(key: Key) -> Place
    ensures { result ≡ top_place key }
{
    Place { key, round: 0 }
}

/// Returns a key as the form writes it.
fn name(form: Form, key: Key) -> &'static str
    ensures { result.now ≡ key_in form key }
{
    match key {
        Key::Round => form.rounds_key(),
        key => key.text(),
    }
}

/// Returns the value of a key, if it is there.
pub fn value_at(form: Form, table: &Table, key: Key) -> Option<&Value>
    ensures { option_map (λ v. view v.now) result ≡ get_member (key_in form key) (table_view table.now) }
{
    table.get(name(form, key))
}

/// Returns the value of a required key, or the fault that it is missing.
pub fn required_at(form: Form, table: &Table, place: Place) -> Result<&Value, FileFault>
    ensures { Gives (λ v. view v.now) result (required form (table_view table.now) place) }
{
    match value_at(form, table, place.key) {
        Some(value) => Ok(value),
        None => Err(FileFault::MissingKey(place)),
    }
}

fn is_known(form: Form, keys: &[Key], text: &str) -> bool
    ensures { result ≡ is_among form keys.now text.now }
{
    keys.iter().any(|key| name(form, *key) == text)
}

fn all_known(form: Form, table: &Table, known: &[Key]) -> bool
    ensures { result ≡ list_all (λ k. is_among form known.now (string_bytes k)) (keys table.now) }
{
    table.keys().all(|key| is_known(form, known, key.as_str()))
}

fn has_only_keys(form: Form, table: &Table, known: &[Key]) -> bool
    ensures { result ≡ has_only form known.now (table_view table.now) }
{
    all_known(form, table, known)
}

/// Checks that each key of the table is one of `known`.
pub fn check_only(form: Form, table: &Table, known: &[Key], round: u8) -> Result<(), FileFault>
    ensures { Gives (λ v. v) result (only form known.now round (table_view table.now)) }
{
    if has_only_keys(form, table, known) {
        Ok(())
    } else {
        Err(FileFault::UnknownKey { round })
    }
}

pub fn whole_number_of(value: &Value, place: Place) -> Result<i64, FileFault>
    ensures { Gives (λ z. z) result (whole_number place (view value.now)) }
{
    match value.as_integer() {
        Some(number) => Ok(number),
        None => Err(FileFault::WrongType(place)),
    }
}

pub fn text_of(value: &Value, place: Place) -> Result<&str, FileFault>
    ensures { Gives (λ s. s.now) result (text place (view value.now)) }
{
    match value.as_str() {
        Some(text) => Ok(text),
        None => Err(FileFault::WrongType(place)),
    }
}

/// Returns the text of a value, or the empty text if the value is absent.
pub fn text_or_none(value: Option<&Value>, place: Place) -> Result<&str, FileFault>
    ensures { Gives (λ s. s.now) result (text_or_empty place (option_map (λ v. view v.now) value.entry)) }
{
    match value {
        Some(value) => text_of(value, place),
        None => Ok(""),
    }
}

pub fn table_of(value: &Value, place: Place) -> Result<&Table, FileFault>
    ensures { Gives (λ t. table_view t.now) result (table_in place (view value.now)) }
{
    match value.as_table() {
        Some(table) => Ok(table),
        None => Err(FileFault::WrongType(place)),
    }
}

pub fn array_of(value: &Value, place: Place) -> Result<&Array, FileFault>
    ensures { Gives (λ a. array_view a.now) result (array_in place (view value.now)) }
{
    match value.as_array() {
        Some(array) => Ok(array),
        None => Err(FileFault::WrongType(place)),
    }
}
