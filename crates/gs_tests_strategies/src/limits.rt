//! The lines for games that are too large, and for solutions with too large a number or too long a path. No small game reaches most of these limits.

use gs_reply::{Limit, Overflow, Refusal, refusal_line};
use std::test::Fail;

/// What there is too much of, and the line of its refusal.
const LIMITS: &[(Limit, &str)] = &[
    (
        Limit::Sequences {
            player: 2,
            count: 262_145,
        },
        "too large: sequences of player 2: 262145\n",
    ),
    (
        Limit::Cells { count: 4_521_984 },
        "too large: cells: 4521984\n",
    ),
    (
        Limit::TableNumbers { count: 1_517_424 },
        "too large: table numbers: 1517424\n",
    ),
    (
        Limit::RawCells { count: 16_777_217 },
        "too large: raw cells: 16777217\n",
    ),
];

/// What of a solution is too large, and the line of its refusal.
const OVERFLOWS: &[(Overflow, &str)] = &[
    (
        Overflow::AtStep {
            step: 0,
            row: 1,
            column: 1,
            number: -4_611_686_018_427_387_904,
        },
        "overflow: step 0 row 1 column 1 number -4611686018427387904\n",
    ),
    (
        Overflow::AtTotal {
            player: 1,
            multiple: 77_262_722_400,
        },
        "overflow: player 1 total 77262722400\n",
    ),
];

#[test]
fn lines_of_limits(rt: HostRuntime) -> Result<(), Fail> {
    for &(limit, line) in LIMITS {
        let told = refusal_line(rt.alloc(), &Refusal::TooLarge(limit))?;
        assert_eq!(rt; told.as_slice(), line.as_bytes());
    }
    for &(at, line) in OVERFLOWS {
        let told = refusal_line(rt.alloc(), &Refusal::Overflows(at))?;
        assert_eq!(rt; told.as_slice(), line.as_bytes());
    }
    let told = refusal_line(rt.alloc(), &Refusal::ManyPivots)?;
    assert_eq!(rt; told.as_slice(), "more than 8192 pivots\n".as_bytes());
    Ok(())
}
