//! Reading all bytes of a source, and writing all bytes to a sink.

ghost use Rattle.std.specs.Prelude.{◌<◌, ◌^◌};
ghost use Rattle.gs_io.specs.Moves.{ReadsAll, WritesAll};

use crate::{InputError, InputFault, Sink, Source, WriteStop};
use std::alloc::Global;

// The most bytes that one read asks for.
const PIECE: usize = 8192;

/// Returns all bytes that are left in the source, at most `limit`.
///
/// # Errors
///
/// `Failed` if a read fails, `TooLong` if more than `limit` bytes are left, `Memory` if memory runs out. The bytes
/// read so far are dropped. At `TooLong` these are exactly one more than the limit.
pub fn read_all<S: Source>(alloc: Global, source: &mut S, limit: u64) -> Result<Vec<u8>, InputError>
    requires { limit < 2 ^ 32 }
    ensures { ReadsAll (λ v. v.items) limit (S.left source.old) (S.left source.new) (S.faults source.old) (S.faults source.new) result }
{
    let most = limit as usize + 1;
    let mut bytes = Vec::new(alloc);
    let mut piece = [0; PIECE];
    while bytes.len() < most {
        let room = (most - bytes.len()).min(PIECE);
        let into = &mut piece[..room];
        match source.take(into) {
            Ok(0) => return Ok(bytes),
            Ok(count) => {
                if bytes.extend_from_slice(&into[..count]).is_err() {
                    return Err(InputError::Memory);
                }
            }
            Err(_) => return Err(InputError::Fault(InputFault::Failed)),
        }
    }
    Err(InputError::Fault(InputFault::TooLong))
}

/// Writes all bytes to the sink.
///
/// # Errors
///
/// `Fault` if a write fails. The sink has then taken exactly the first `written` bytes.
pub fn write_all<K: Sink>(sink: &mut K, bytes: &[u8]) -> Result<(), WriteStop>
    ensures { WritesAll bytes.now (K.given sink.old) (K.given sink.new) (K.faults sink.old) (K.faults sink.new) result }
{
    let mut written = 0;
    while written < bytes.len() {
        match sink.give(&bytes[written..]) {
            Ok(count) => written += count,
            Err(_) => return Err(WriteStop::Fault { written }),
        }
    }
    Ok(())
}
