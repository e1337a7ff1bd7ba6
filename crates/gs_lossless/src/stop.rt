//! Why a check for lossless classes fails.

ghost use Rattle.std.specs.Prelude.{◌≡◌};
ghost use Rattle.gs_lossless.specs.declared.stop.CheckStop.TheVariants.{Memory};

use std::alloc::AllocError;

/// Why a check did not find classes to be lossless.
#[derive(Clone, Copy)]
pub enum CheckStop {
    /// `second` is the first signal, by round and then place, that is not like the first member of its class, and `first` is that member.
    Unlike { round: u8, first: u32, second: u32 },
    /// Out of memory.
    Memory,
}

impl From<AllocError> for CheckStop {
    ghost from_gives = { λ _ e. e ≡ Memory };

    fn from(_error: AllocError) -> CheckStop {
        CheckStop::Memory
    }
}
