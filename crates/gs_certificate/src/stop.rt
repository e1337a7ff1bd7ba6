//! What stops a check.

ghost use Rattle.std.specs.Prelude.{◌≡◌};
ghost use Rattle.gs_certificate.specs.declared.stop.CertError.TheVariants.{Memory};

use crate::fault::CertFault;
use std::alloc::AllocError;

/// Why a check gives no answer: memory ran out, or the certificate does not hold, given by the first thing that is wrong with it.
#[derive(Clone, Copy)]
pub enum CertError {
    Memory,
    Fault(CertFault),
}

impl<E: Into<AllocError> + Drop> From<E> for CertError {
    ghost from_gives = { λ _ e. e ≡ Memory };

    fn from(_: E) -> CertError {
        CertError::Memory
    }
}
