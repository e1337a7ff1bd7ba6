//! Reading the words of the command line.

ghost use Rattle.std.specs.Prelude.{◌≡◌, ◌≤◌, codes, IfOk, IfSome, map, string_bytes, option_map, option_and_then};
ghost use Rattle.clap.specs.Words.{first_of, rows_of, found_of, subcommand_rows_of};
ghost use Rattle.gs_words.specs.Requests.{grouping_in, is_set as is_true, make_of, play_with, query_with, task_for, task_in, IsStopFor, ReadsWords, TakesWords};
ghost use Rattle.gs_words.specs.{Tasks.{task_of, IsInRange}, Values.{number_in}};
ghost use Rattle.gs_words.specs.declared.names.CommandName.TheVariants as command;

use crate::command::program;
use crate::names::{CommandName, command_named};
use crate::request::{Grouping, Make, OfGame, OfRaw, OfStrategy, Request, WordsStop};
use crate::values::{grouping, kind, number};
use clap::ArgMatches;
use clap::error::ErrorKind;
use std::alloc::Global;

// Returns why words are refused, from the kind of `clap`'s error.
fn stop_for(kind: ErrorKind) -> WordsStop
    ensures { IsStopFor kind result }
{
    match kind {
        ErrorKind::OutOfMemory => WordsStop::Memory,
        _ => WordsStop::Usage,
    }
}

// Parses the words with the program's command.
fn taken<'a>(alloc: Global, words: &'a [String]) -> Result<ArgMatches<'a>, WordsStop>
    ensures { TakesWords result (map string_bytes words.entry.now) }
{
    let command = match program(alloc) {
        Ok(command) => command,
        Err(_) => return Err(WordsStop::Memory),
    };
    match command.try_get_matches_from(words) {
        Ok(matches) => Ok(matches),
        Err(error) => Err(stop_for(error.kind())),
    }
}

// Returns the value of an option, if it is given.
fn value_of<'a>(options: &ArgMatches<'a>, name: &str) -> Option<&'a str>
    ensures { option_map (λ s. s.now) result ≡ first_of name.now (rows_of (found_of options.now)) }
{
    options.get_str(name)
}

// Returns whether a flag is given.
fn is_set(options: &ArgMatches, name: &str) -> bool
    ensures { result ≡ is_true (first_of name.now (rows_of (found_of options.now))) }
{
    match value_of(options, name) {
        Some(text) => text == "true",
        None => false,
    }
}

// Returns the number that an option gives, if it is from `least` to `most`.
fn number_of(options: &ArgMatches, name: &str, least: u32, most: u32) -> Option<u32>
    ensures value { result ≡ option_and_then (number_in least most) (first_of name.now (rows_of (found_of options.now))) }
    ensures within { IfSome result (λ n. (least ≤ n) × (n ≤ most)) }
{
    number(value_of(options, name)?, least, most)
}

// Returns the grouping that `--classes` names, and the coarsest lossless one without it.
fn grouping_of(options: &ArgMatches) -> Option<Grouping>
    ensures { result ≡ grouping_in (first_of (codes "classes") (rows_of (found_of options.now))) }
{
    match value_of(options, "classes") {
        Some(word) => grouping(word),
        None => Some(Grouping::Coarsest),
    }
}

fn play_request<'a>(options: &ArgMatches<'a>) -> Option<Request<'a>>
    ensures value { option_map task_of result ≡ play_with (grouping_in (first_of (codes "classes") (rows_of (found_of options.now))))
        (option_and_then (number_in 0 1000000) (first_of (codes "turns") (rows_of (found_of options.now)))) }
    ensures within { IfSome result (λ r. IsInRange (task_of r)) }
{
    let grouping = grouping_of(options)?;
    let turns = number_of(options, "turns", 0, 1_000_000)?;
    Some(Request::OfGame(OfGame::Play { grouping, turns }))
}

fn query_request<'a>(options: &ArgMatches<'a>) -> Option<Request<'a>>
    ensures value { option_map task_of result ≡ query_with (option_and_then (number_in 1 2) (first_of (codes "player") (rows_of (found_of options.now))))
        (first_of (codes "line") (rows_of (found_of options.now))) (first_of (codes "signal") (rows_of (found_of options.now))) }
    ensures within { IfSome result (λ r. IsInRange (task_of r)) }
{
    let player = number_of(options, "player", 1, 2)? as u8;
    let line = value_of(options, "line")?;
    let signal = value_of(options, "signal")?;
    Some(Request::OfStrategy(OfStrategy::Query {
        player,
        line,
        signal,
    }))
}

fn make_request<'a>(options: &ArgMatches<'a>) -> Option<Request<'a>>
    ensures value { option_map task_of result ≡ make_of (first_of (codes "kind") (rows_of (found_of options.now)))
        (first_of (codes "ranks") (rows_of (found_of options.now))) (first_of (codes "suits") (rows_of (found_of options.now)))
        (first_of (codes "cap") (rows_of (found_of options.now))) (first_of (codes "summary") (rows_of (found_of options.now))) }
    ensures within { IfSome result (λ r. IsInRange (task_of r)) }
{
    let kind = kind(value_of(options, "kind")?)?;
    let ranks = number_of(options, "ranks", 1, 13)? as u8;
    let suits = number_of(options, "suits", 1, 4)? as u8;
    let cap = number_of(options, "cap", 0, 8)? as u8;
    let summary = is_set(options, "summary");
    Some(Request::Make(Make {
        kind,
        ranks,
        suits,
        cap,
        summary,
    }))
}

// Returns the request of a command with options, if its values are valid.
fn request_for<'a>(name: CommandName, options: &ArgMatches<'a>) -> Option<Request<'a>>
    ensures value { option_map task_of result ≡ task_for name (λ option. first_of option (rows_of (found_of options.now))) }
    ensures within { IfSome result (λ r. IsInRange (task_of r)) }
{
    match name {
        CommandName::Shrink => Some(Request::OfGame(OfGame::Shrink {
            summary: is_set(options, "summary"),
        })),
        CommandName::Check => Some(Request::OfGame(OfGame::Check {
            grouping: grouping_of(options)?,
            summary: is_set(options, "summary"),
        })),
        CommandName::Solve => Some(Request::OfGame(OfGame::Solve {
            grouping: grouping_of(options)?,
        })),
        CommandName::Play => play_request(options),
        CommandName::Path => Some(Request::OfGame(OfGame::Path {
            grouping: grouping_of(options)?,
        })),
        CommandName::Evaluate => Some(Request::OfStrategy(OfStrategy::Evaluate)),
        CommandName::Query => query_request(options),
        CommandName::Upgrade => Some(Request::OfStrategy(OfStrategy::Upgrade)),
        CommandName::Certify => Some(Request::OfStrategy(OfStrategy::Certify)),
        CommandName::Verify => Some(Request::OfStrategy(OfStrategy::Verify)),
        CommandName::Judge => Some(Request::OfRaw(OfRaw::Judge)),
        CommandName::Duel => Some(Request::OfRaw(OfRaw::Duel)),
        CommandName::Make => make_request(options),
    }
}

// Returns the name and the options of the subcommand that was entered.
fn entered<'m, 'a>(matches: &'m ArgMatches<'a>) -> Option<(&'a str, &'m ArgMatches<'a>)>
    ensures { option_map (λ p. (p.0.now, rows_of (found_of p.1.now))) result ≡ subcommand_rows_of matches.now }
{
    matches.subcommand()
}

// Returns the request of the parsed words, if their values are valid.
fn request_in<'a>(matches: &ArgMatches<'a>) -> Option<Request<'a>>
    ensures value { option_map task_of result ≡ option_and_then task_in (subcommand_rows_of matches.now) }
    ensures within { IfSome result (λ r. IsInRange (task_of r)) }
{
    let (name, options) = entered(matches)?;
    request_for(command_named(name)?, options)
}

/// Returns what the words ask for. The first word is the command.
///
/// # Errors
///
/// `Usage` if `clap` refuses the words, a request for help included, or if a value is not valid for
/// its option. `Memory` if memory runs out.
#[tactic(auto, unfolding(crate::specs::Requests::request_of))]
pub fn read_words<'w>(alloc: Global, words: &'w [String]) -> Result<Request<'w>, WordsStop>
    ensures reads { ReadsWords result (map string_bytes words.entry.now) }
    ensures within { IfOk result (λ r. IsInRange (task_of r)) }
{
    let matches = taken(alloc, words)?;
    match request_in(&matches) {
        Some(request) => Ok(request),
        None => Err(WordsStop::Usage),
    }
}
