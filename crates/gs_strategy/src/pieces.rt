//! Appending parts of a strategy to its text.

ghost use Rattle.std.specs.Prelude.{◌≡◌, ◌++◌, OnOk, decimal};
ghost use Rattle.serde_json.specs.Written.{comma_if, compact_text};
ghost use Rattle.gs_model.specs.Rows.{rows};
ghost use Rattle.gs_file.specs.{JsonForm.{game_data}, Views.{valid_view}};
ghost use Rattle.gs_strategy.specs.{Texts.{classes_data, fraction_data, numbers_data, plan_data}, Views.{parts_of, weights_of}};

use gs_file::{Version, game_value};
use gs_frac::Fraction;
use gs_game::ValidGame;
use gs_seq::Plan;
use itoa::write_digits;
use serde_json::Value;
use std::alloc::{AllocError, Global};

/// Appends a comma if something stands before.
fn push_comma(text: &mut Vec<u8>, later: bool) -> Result<(), AllocError>
    ensures { OnOk result (text.new.items ≡ text.old.items ++ comma_if later) }
{
    if later {
        text.push(b',')?;
    }
    Ok(())
}

/// Appends the digits of a number.
pub fn push_number(text: &mut Vec<u8>, number: u64) -> Result<(), AllocError>
    ensures { OnOk result (text.new.items ≡ text.old.items ++ decimal number) }
{
    if number < 10 {
        text.push(b'0' + number as u8)?;
        return Ok(());
    }
    let mut digits = [0u8; 20];
    let start = write_digits(number, &mut digits, 20);
    text.extend_from_slice(&digits[start..])
}

/// Appends weights as an array.
fn push_weights(text: &mut Vec<u8>, weights: &[u64]) -> Result<(), AllocError>
    ensures { OnOk result (text.new.items ≡ text.old.items ++ compact_text (numbers_data weights.now)) }
{
    text.push(b'[')?;
    for (at, weight) in weights.iter().enumerate() {
        push_comma(text, at > 0)?;
        push_number(text, *weight)?;
    }
    text.push(b']')?;
    Ok(())
}

/// Appends class numbers as an array.
fn push_list(text: &mut Vec<u8>, list: &[u32]) -> Result<(), AllocError>
    ensures { OnOk result (text.new.items ≡ text.old.items ++ compact_text (numbers_data list.now)) }
{
    text.push(b'[')?;
    for (at, class) in list.iter().enumerate() {
        push_comma(text, at > 0)?;
        push_number(text, u64::from(*class))?;
    }
    text.push(b']')?;
    Ok(())
}

/// Appends the class numbers of each round.
pub fn push_classes(text: &mut Vec<u8>, lists: &[Vec<u32>]) -> Result<(), AllocError>
    ensures { OnOk result (text.new.items ≡ text.old.items ++ compact_text (classes_data (rows lists.now))) }
{
    text.push(b'[')?;
    for (at, list) in lists.iter().enumerate() {
        push_comma(text, at > 0)?;
        push_list(text, list)?;
    }
    text.push(b']')?;
    Ok(())
}

/// Appends a key and a plan.
pub fn push_plan(text: &mut Vec<u8>, key: &[u8], plan: &Plan) -> Result<(), AllocError>
    ensures { OnOk result (text.new.items ≡ (text.old.items ++ key.now) ++ compact_text (plan_data (weights_of plan.now))) }
{
    text.extend_from_slice(key)?;
    text.extend_from_slice(b"{\"total\":")?;
    push_number(text, plan.total)?;
    text.extend_from_slice(b",\"weights\":")?;
    push_weights(text, &plan.weights)?;
    text.push(b'}')?;
    Ok(())
}

/// Appends a game in a version.
pub fn push_game(
    text: &mut Vec<u8>,
    alloc: Global,
    version: Version,
    game: &ValidGame,
) -> Result<(), AllocError>
    ensures { OnOk result (text.new.items ≡ text.old.items ++ compact_text (game_data version (valid_view game.now))) }
{
    let value = game_value(alloc, game, version)?;
    let game_text = value.to_vec(alloc)?;
    text.extend_from_slice(&game_text)?;
    Ok(())
}

/// Appends a key and a fraction.
pub fn push_fraction(
    text: &mut Vec<u8>,
    alloc: Global,
    key: &[u8],
    fraction: &Fraction,
) -> Result<(), AllocError>
    ensures { OnOk result (text.new.items ≡ (text.old.items ++ key.now) ++ compact_text (fraction_data (parts_of fraction.now))) }
{
    text.extend_from_slice(key)?;
    let value = Value::from(fraction.to_text(alloc)?);
    let fraction_text = value.to_vec(alloc)?;
    text.extend_from_slice(&fraction_text)
}
