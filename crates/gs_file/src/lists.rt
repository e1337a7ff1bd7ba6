//! Reading arrays whose items have one type.

ghost use Rattle.std.specs.Prelude.{map};
ghost use Rattle.toml.specs.View.{view, table_view};
ghost use Rattle.gs_file.specs.{Answers.{MayGive}, Tables.{each, table_in, whole_number, tables_in, whole_numbers_in}};

use crate::fault::{FileError, Place};
use crate::fields::{array_of, table_of, whole_number_of};
use std::alloc::Global;
use toml::{Table, Value};

fn each_table(alloc: Global, items: &[Value], place: Place) -> Result<Vec<&Table>, FileError>
    ensures { MayGive (λ v. map (λ t. table_view t.now) v.items) result (each (λ n. table_in place) 1 (map view items.now)) }
{
    let mut tables = Vec::new(alloc);
    for item in items {
        let table = table_of(item, place)?;
        tables.push(table)?;
    }
    Ok(tables)
}

/// Returns the tables of an array of tables.
#[tactic(auto, unfolding(crate::specs::Tables::tables_in))]
pub fn tables_of(alloc: Global, value: &Value, place: Place) -> Result<Vec<&Table>, FileError>
    ensures { MayGive (λ v. map (λ t. table_view t.now) v.items) result (tables_in place (view value.now)) }
{
    let array = array_of(value, place)?;
    each_table(alloc, array, place)
}

fn each_whole_number(alloc: Global, items: &[Value], place: Place) -> Result<Vec<i64>, FileError>
    ensures { MayGive (λ v. v.items) result (each (λ n. whole_number place) 1 (map view items.now)) }
{
    let mut numbers = Vec::new(alloc);
    for item in items {
        let number = whole_number_of(item, place)?;
        numbers.push(number)?;
    }
    Ok(numbers)
}

/// Returns the integers of an array of integers.
#[tactic(auto, unfolding(crate::specs::Tables::whole_numbers_in))]
pub fn whole_numbers_of(alloc: Global, value: &Value, place: Place) -> Result<Vec<i64>, FileError>
    ensures { MayGive (λ v. v.items) result (whole_numbers_in place (view value.now)) }
{
    let array = array_of(value, place)?;
    each_whole_number(alloc, array, place)
}
