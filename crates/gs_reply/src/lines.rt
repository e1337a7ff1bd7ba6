//! The line of a refusal. This is the one place where refusals become text.

ghost use Rattle.std.specs.Prelude.{◌≡◌, ◌++◌, IfOk, codes};
ghost use Rattle.gs_reply.specs.{Refusals.{Refusal as Why, line_of, query_text as text_of_query, which_text as text_of_which}, Replies.{IsRefusal}};

use crate::refusals::{Refusal, Which};
use crate::stores::store_fault_text;
use gs_lift::QueryFault;
use gs_text::file_fault_text;
use std::alloc::{AllocError, Global};

// Returns the part of a query that breaks a rule.
fn query_text(fault: QueryFault) -> &'static str
    ensures { result.now ≡ text_of_query fault }
{
    match fault {
        QueryFault::Line => "line",
        QueryFault::Player => "player",
        QueryFault::Signal => "signal",
        QueryFault::Round => "round",
    }
}

// Returns which file it is, for a command that reads two.
fn which_text(which: Which) -> &'static str
    ensures { result.now ≡ text_of_which which }
{
    match which {
        Which::Only => "",
        Which::First => "first: ",
        Which::Second => "second: ",
    }
}

// Returns the line of three texts.
fn line_with(alloc: Global, kind: &str, place: &str, text: &[u8]) -> Result<Vec<u8>, AllocError>
    ensures { IfOk result (λ line. line.items ≡ kind.now ++ place.now ++ text.now ++ codes "\n") }
{
    let mut line = format!(in alloc; "{kind}{place}")?.into_bytes();
    line.extend_from_slice(text)?;
    line.push(b'\n')?;
    Ok(line)
}

/// Returns the line of a refusal.
pub fn refusal_line(alloc: Global, refusal: &Refusal) -> Result<Vec<u8>, AllocError>
    ensures { IfOk result (λ line. (why : Why) → IsRefusal refusal.now why → line.items ≡ line_of why) }
{
    let line = match refusal {
        Refusal::BadGame(fault) => {
            let text = file_fault_text(alloc, fault)?;
            return line_with(alloc, "bad game: ", "", &text);
        }
        Refusal::BadStrategy { which, fault } => {
            let text = store_fault_text(alloc, fault)?;
            return line_with(alloc, "bad strategy: ", which_text(*which), &text);
        }
        Refusal::BadCertificate(text) => return line_with(alloc, "bad certificate: ", "", text),
        Refusal::Unlike {
            round,
            first,
            second,
        } => format!(in alloc; "unlike: round {round} {first} {second}\n"),
        Refusal::Overflows(at) => format!(in alloc; "overflow: {at}\n"),
        Refusal::ManyPivots => String::from_str(alloc, "more than 8192 pivots\n"),
        Refusal::TooLarge(limit) => format!(in alloc; "too large: {limit}\n"),
        Refusal::WrongNumber(wrong) => {
            let (name, stated, found) = (wrong.name, &wrong.stated, &wrong.found);
            format!(in alloc; "wrong numbers: {name} {stated} found {found}\n")
        }
        Refusal::BadQuery(fault) => {
            let text = query_text(*fault);
            format!(in alloc; "bad query: {text}\n")
        }
        Refusal::OtherGame => String::from_str(alloc, "other game\n"),
    };
    Ok(line?.into_bytes())
}
