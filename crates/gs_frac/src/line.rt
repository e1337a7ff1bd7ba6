//! Lines that end in a fraction.

ghost use Rattle.std.specs.Prelude.{◌≡◌, ◌++◌, OnOk, string_bytes};
ghost use Rattle.gs_frac.specs.Texts.{number_line};

use crate::value::Fraction;
use std::alloc::AllocError;
use std::fmt::Write;

/// Adds a line of the words, a space and the fraction to `text`. The error is out of memory.
pub fn push_line(text: &mut String, words: &str, number: &Fraction) -> Result<(), AllocError>
    ensures { OnOk result (string_bytes text.new ≡ string_bytes text.old ++ number_line words.now (number.now.num, number.now.den)) }
{
    writeln!(text, "{words} {number}")
}
