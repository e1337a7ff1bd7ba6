//! The strategy of a strategy file.

ghost use Rattle.std.specs.Prelude.{IfErr, IfOk, Ok};
ghost use Rattle.gs_reply.specs.Replies.{IsBadStrategy, StopsFor};
ghost use Rattle.gs_strategy.specs.{Checks.{Reads}, Views.{stored_view}};

use crate::refusals::{Refusal, Stop, Which};
use gs_strategy::{StoreError, Stored, read_strategy};
use std::alloc::Global;

/// Returns the strategy that the bytes of a strategy file hold, or the refusal of bytes that hold none.
pub fn stored_strategy(alloc: Global, which: Which, bytes: &[u8]) -> Result<Stored, Stop>
    ensures stored { IfOk result (λ stored. Reads bytes.now (Ok (stored_view stored))) }
    ensures refused { IfErr result (StopsFor (IsBadStrategy which bytes.now)) }
{
    match read_strategy(alloc, bytes) {
        Ok(stored) => Ok(stored),
        Err(StoreError::Memory) => Err(Stop::Memory),
        Err(StoreError::Fault(fault)) => {
            Err(Stop::Refused(Refusal::BadStrategy { which, fault }))
        }
    }
}
