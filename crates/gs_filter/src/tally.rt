//! Sizes and first members of the classes of a list.

ghost use Rattle.std.specs.Prelude.{◌≡◌, ◌<◌, ◌^◌, length, IfOk, OnOk, IfErr};
ghost use Rattle.gs_model.specs.Numbering.{IsNumbered};
ghost use Rattle.gs_filter.specs.Tallies.{tallies_of, IsErrorOf};

use std::alloc::{AllocFailed, Global};

/// The size and the first member of a class.
#[derive(Clone, Copy)]
pub(crate) struct Tally {
    pub(crate) size: u32,
    pub(crate) first: u32,
}

/// Why a list is not tallied: memory ran out, or the number at this place is 0 or more than one above the greatest before it.
#[derive(Clone, Copy)]
pub(crate) enum TallyError {
    Memory,
    Fault(u32),
}

impl<T: Drop> From<AllocFailed<T>> for TallyError {
    ghost use Rattle.std.specs.Prelude.{◌≡◌};
    ghost use Rattle.gs_filter.specs.declared.tally.TallyError.TheVariants.{Memory};

    ghost from_gives = { λ _ e. e ≡ Memory };

    fn from(_error: AllocFailed<T>) -> TallyError {
        TallyError::Memory
    }
}

/// Returns the tally of each class of a list. Fails with the first place whose number is invalid, or if memory runs out.
pub(crate) fn count_members(alloc: Global, list: &[u32]) -> Result<Vec<Tally>, TallyError>
    requires { length list.now < 2 ^ 32 }
    ensures tallied { IfOk result (λ tallies. tallies.items ≡ tallies_of list.now) }
    ensures numbered { OnOk result (IsNumbered list.now) }
    ensures unseen { IfErr result (IsErrorOf list.now) }
{
    let mut tallies: Vec<Tally> = Vec::new(alloc);
    for (at, class) in list.iter().enumerate() {
        let class = *class as usize;
        let seen = tallies.len();
        if class == 0 || class > seen + 1 {
            return Err(TallyError::Fault(at as u32));
        }
        if class > seen {
            tallies.push(Tally {
                size: 1,
                first: at as u32,
            })?;
        } else {
            tallies[class - 1].size += 1;
        }
    }
    Ok(tallies)
}
