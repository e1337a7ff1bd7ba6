//! Checking a certificate against the plans of a strategy.

ghost use Rattle.std.specs.Prelude.{◌≡◌, IfOk};
ghost use Rattle.gs_certificate.specs.{Checks.{AreSmall}, Views.{certificate_view}};
ghost use Rattle.gs_strategy_commands.specs.{Held.{IsFormOf}, Verifying.{SaysChecked, SaysVerified, bounds_text as text_of_bounds}};
ghost use Rattle.gs_reply.specs.Replies.{Answers};
ghost use Rattle.gs_strategy.specs.Views.{parts_of, stored_view};

use crate::checks::{form_of, lossless_of};
use crate::value::value_of;
use gs_certificate::{
    CertError, CertTextError, Certificate, cert_fault_text, cert_text_fault_text, certified_payoff,
    read_certificate,
};
use gs_frac::{Fraction, push_line};
use gs_reply::{Refusal, Stop};
use gs_seq::Abstract;
use gs_strategy::Stored;
use gs_tree::Signals;
use std::alloc::{AllocError, Global};

// Returns the lines of the value of two plans and of each player's bound.
fn bounds_text(alloc: Global, value: &Fraction, c: &Certificate) -> Result<Vec<u8>, AllocError>
    ensures { IfOk result (λ text. text.items ≡ text_of_bounds (parts_of value.now) (certificate_view c.now)) }
{
    let mut text = String::new(alloc);
    push_line(&mut text, "value", value)?;
    push_line(&mut text, "player1 at most", &c.bound1)?;
    push_line(&mut text, "player2 at most", &c.bound2)?;
    Ok(text.into_bytes())
}

// Returns the value of a strategy's plans and the bounds of a certificate, if it is valid; or the refusal with its first fault.
fn sound(alloc: Global, stored: &Stored, form: &Abstract, c: &Certificate) -> Result<Vec<u8>, Stop>
    requires form { IsFormOf stored.now form.now }
    requires modest { AreSmall c.now }
    ensures { Answers (SaysChecked (stored_view stored.now) c.now) result }
{
    match certified_payoff(alloc, form, &stored.one, &stored.two, c) {
        Err(CertError::Memory) => Err(Stop::Memory),
        Err(CertError::Fault(fault)) => {
            let why = cert_fault_text(alloc, &fault)?;
            Err(Stop::Refused(Refusal::BadCertificate(why)))
        }
        Ok(paid) => {
            let value = value_of(form, &stored.one, &stored.two, paid);
            Ok(bounds_text(alloc, &value, c)?)
        }
    }
}

// Returns what `verify` says of a strategy over the signals of its game and of a certificate. Classes that are not lossless and a game that is too large are
// refused first.
fn over(alloc: Global, stored: &Stored, signals: &Signals, c: &Certificate) -> Result<Vec<u8>, Stop>
    requires game { signals.now.game.now ≡ stored.now.game }
    requires modest { AreSmall c.now }
    ensures { Answers (SaysChecked (stored_view stored.now) c.now) result }
{
    let lossless = lossless_of(alloc, stored, signals)?;
    let form = form_of(alloc, stored, &lossless)?;
    sound(alloc, stored, &form, c)
}

// Returns what `verify` says of a strategy and a certificate.
fn checked(alloc: Global, stored: &Stored, c: &Certificate) -> Result<Vec<u8>, Stop>
    requires { AreSmall c.now }
    ensures { Answers (SaysChecked (stored_view stored.now) c.now) result }
{
    let signals = Signals::of(alloc, &stored.game)?;
    over(alloc, stored, &signals, c)
}

/// Returns what `verify` says of a strategy and the bytes of its certificate. Bytes that are not the text of a certificate are refused first.
pub(crate) fn verified(alloc: Global, stored: &Stored, bytes: &[u8]) -> Result<Vec<u8>, Stop>
    ensures { Answers (SaysVerified bytes.now (stored_view stored.now)) result }
{
    match read_certificate(alloc, bytes) {
        Ok(c) => checked(alloc, stored, &c),
        Err(CertTextError::Memory) => Err(Stop::Memory),
        Err(CertTextError::Fault(fault)) => {
            let told = cert_text_fault_text(alloc, &fault)?;
            Err(Stop::Refused(Refusal::BadCertificate(told)))
        }
    }
}
