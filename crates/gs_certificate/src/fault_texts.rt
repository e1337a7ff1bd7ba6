//! The texts of what is wrong with a certificate.

ghost use Rattle.std.specs.{Prelude.{◌≡◌, ◌++◌, IfOk, codes, string_bytes}, Fmt.{decimal}};
ghost use Rattle.gs_frac.specs.{FaultText.{fault_text as fraction_fault_text}, Texts.{fraction_text}};
ghost use Rattle.gs_certificate.specs.FaultTexts.{cert_fault_text as text_of_fault, cert_text_fault_text as text_of_text_fault};

use crate::fault::CertFault;
use crate::text_fault::CertTextFault;
use gs_frac::{FracFault, Fraction};
use std::alloc::{AllocError, Global};

// Returns the text of the fault that a player's number is too low.
fn low_text(alloc: Global, player: u8, point: u32, class: u32) -> Result<String, AllocError>
    ensures { IfOk result (λ s. string_bytes s
        ≡ codes "player " ++ decimal player ++ codes " low at point " ++ decimal point ++ codes " class " ++ decimal class) }
{
    format!(in alloc; "player {player} low at point {point} class {class}")
}

// Returns the text of the fault that a player's bound is not what the player's numbers give.
fn bound_text(alloc: Global, player: u8, found: Fraction) -> Result<String, AllocError>
    ensures { IfOk result (λ s. string_bytes s ≡ codes "player " ++ decimal player ++ codes " bound found " ++ fraction_text found.num found.den) }
{
    format!(in alloc; "player {player} bound found {found}")
}

/// Returns why a certificate does not hold, without an end of line. The error is out of memory.
pub fn cert_fault_text(alloc: Global, fault: &CertFault) -> Result<Vec<u8>, AllocError>
    ensures { IfOk result (λ text. text.items ≡ text_of_fault fault.now) }
{
    let text = match fault {
        CertFault::Length { player, .. } => format!(in alloc; "player {player} length"),
        CertFault::Low {
            player,
            point,
            class,
        } => low_text(alloc, *player, *point, *class),
        CertFault::Bound { player, found } => bound_text(alloc, *player, *found),
    };
    Ok(text?.into_bytes())
}

// Returns the text of the fault that a player's text is not that of a whole number.
fn value_text(alloc: Global, player: u8, at: u64) -> Result<String, AllocError>
    ensures { IfOk result (λ s. string_bytes s ≡ codes "value of player " ++ decimal player ++ codes " at " ++ decimal at) }
{
    format!(in alloc; "value of player {player} at {at}")
}

// Returns the text of the fault that a player's bound is not the text of a fraction.
fn fraction_fault(alloc: Global, player: u8, fault: &FracFault) -> Result<String, AllocError>
    ensures { IfOk result (λ s. string_bytes s ≡ codes "bound of player " ++ decimal player ++ codes " " ++ fraction_fault_text fault.now) }
{
    format!(in alloc; "bound of player {player} {fault}")
}

// Returns what is wrong, and a number after it.
fn numbered(alloc: Global, wrong: &str, number: u64) -> Result<String, AllocError>
    ensures { IfOk result (λ s. string_bytes s ≡ wrong.now ++ decimal number) }
{
    format!(in alloc; "{wrong}{number}")
}

/// Returns why bytes are not the text of a certificate, without an end of line. The error is out of memory.
pub fn cert_text_fault_text(alloc: Global, fault: &CertTextFault) -> Result<Vec<u8>, AllocError>
    ensures { IfOk result (λ text. text.items ≡ text_of_text_fault fault.now) }
{
    let text = match fault {
        CertTextFault::NotJson => String::from_str(alloc, "not JSON"),
        CertTextFault::Shape => String::from_str(alloc, "shape"),
        CertTextFault::Version(number) => numbered(alloc, "version ", *number),
        CertTextFault::Value { player, at } => value_text(alloc, *player, *at),
        CertTextFault::Fraction { player, fault } => fraction_fault(alloc, *player, fault),
        CertTextFault::NotCanonical { at } => numbered(alloc, "not canonical at ", *at),
    };
    Ok(text?.into_bytes())
}
