//! For how many turns a number that rises stays behind another.

ghost use Rattle.std.specs.Prelude.{◌≡◌, ◌+◌, ◌-◌, ◌/◌, ◌<◌, ◌≤◌, ◌^◌, ◌-ℤ◌, IsTrue, unsigned_abs};
ghost use Rattle.gs_play.specs.Lasting.{IsBehind, IsNotAhead, IsWithinGap};

/// The greatest number of turns, at most so many, in which a gain each turn does not close a gap.
fn within_gap(before: bool, gap: u128, gain: u128, times: u32) -> u32
    requires gain { 0 < gain }
    requires gap { IsTrue before → 0 < gap }
    requires small { gap + gain < 2 ^ 128 }
    ensures within { IsWithinGap before gap gain result }
    ensures greatest { result < times → IsWithinGap before gap gain (result + 1) → ⊥ }
    ensures most { result ≤ times }
    ensures some { 0 < times → 0 < result }
{
    let most = if before {
        (gap + gain - 1) / gain
    } else {
        gap / gain + 1
    };
    if most < u128::from(times) {
        most as u32
    } else {
        times
    }
}

/// How far a number is above another.
fn above(greater: i128, less: i128) -> u128
    requires { unsigned_abs (greater -ℤ less) < 2 ^ 120 }
    ensures value { result ≡ unsigned_abs (greater -ℤ less) }
    ensures small { result < 2 ^ 120 }
{
    (greater - less).unsigned_abs()
}

/// The greatest number of turns, at most so many, in which a worth that rises does not overtake a value that rises.
pub(crate) fn behind(
    before: bool,
    value: i128,
    worth: i128,
    slope: i128,
    rise: i128,
    times: u32,
) -> u32
    requires ahead { IsNotAhead before value worth }
    requires gap { unsigned_abs (value -ℤ worth) < 2 ^ 120 }
    requires gain { unsigned_abs (rise -ℤ slope) < 2 ^ 120 }
    ensures behind { IsBehind before value worth slope rise result }
    ensures greatest { result < times → IsBehind before value worth slope rise (result + 1) → ⊥ }
    ensures most { result ≤ times }
    ensures some { 0 < times → 0 < result }
{
    if slope < rise {
        let gap = above(value, worth);
        let gain = above(rise, slope);
        within_gap(before, gap, gain, times)
    } else {
        times
    }
}
