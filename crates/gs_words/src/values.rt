//! Reading the values of options.

ghost use Rattle.std.specs.Prelude.{◌≡◌, ◌≤◌, IfSome};
ghost use Rattle.gs_words.specs.Values.{grouping_of, kind_of, number_in};

use crate::kind::Kind;
use crate::request::Grouping;
use gs_frac::is_number;

/// Returns the grouping that a word names.
pub(crate) fn grouping(word: &str) -> Option<Grouping>
    ensures { result ≡ grouping_of word.now }
{
    match word {
        "ogi" => Some(Grouping::Isomorphism),
        "split" => Some(Grouping::Coarsest),
        "raw" => Some(Grouping::Single),
        _ => None,
    }
}

/// Returns the kind of game that a word names.
pub(crate) fn kind(word: &str) -> Option<Kind>
    ensures { result ≡ kind_of word.now }
{
    match word {
        "kuhn" => Some(Kind::Kuhn),
        "leduc" => Some(Kind::Leduc),
        "rhode" => Some(Kind::Rhode),
        _ => None,
    }
}

/// Returns the number that a word writes, if it is from `least` to `most`.
pub(crate) fn number(word: &str, least: u32, most: u32) -> Option<u32>
    ensures value { result ≡ number_in least most word.now }
    ensures within { IfSome result (λ n. (least ≤ n) × (n ≤ most)) }
{
    if !is_number(word.as_bytes()) {
        return None;
    }
    let number = word.parse::<u32>().ok()?;
    if least <= number && number <= most {
        Some(number)
    } else {
        None
    }
}
