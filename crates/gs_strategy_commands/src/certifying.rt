//! The text that `certify` prints.

ghost use Rattle.std.specs.Prelude.{IfOk};
ghost use Rattle.gs_strategy_commands.specs.{Held.{HoldsStrategy}, Certificates.{IsCertified}};
ghost use Rattle.gs_strategy.specs.Views.{stored_view};

use gs_certificate::{certificate_text, make_certificate};
use gs_file::Version;
use gs_seq::Abstract;
use gs_strategy::Stored;
use std::alloc::{AllocError, Global};

/// Returns a strategy's text in version 2, followed by the text of its certificate.
pub(crate) fn certified_text(
    alloc: Global,
    stored: &Stored,
    form: &Abstract,
) -> Result<Vec<u8>, AllocError>
    requires { HoldsStrategy form.now.lossless.now stored.now }
    ensures { IfOk result (λ text. IsCertified (stored_view stored.now) text.items) }
{
    let line = {
        let c = make_certificate(alloc, form, &stored.one, &stored.two)?;
        certificate_text(alloc, &c)?
    };
    let mut text = stored.text(alloc, Version::Two)?;
    text.extend_from_slice(&line)?;
    Ok(text)
}
