//! Sums of a row over the classes below a class of an earlier round.

ghost use Rattle.std.specs.{Prelude.{◌≡◌, ◌+◌, ◌-◌, ◌<◌, ◌≤◌, ◌^◌, ℕ, pos, get_or, length, unsigned_abs}, List.{range_with_len}};
ghost use Rattle.gs_model.specs.{Classes.{IsClass, class_count}, Sums.{sum_z}};
ghost use Rattle.gs_seq.specs.Abstracts.{abstract_frame, lists_of};
ghost use Rattle.gs_best.specs.{ClassTotals.{gathered_below}, LaterRows.{AreGathered, row_from, IsLaterRow}};

use crate::below::classes_below;
use crate::class_row::ClassRow;
use gs_seq::{Abstract, plus};

/// Returns the sum of the numbers of a list from the place `first` up to `end`, which is not one of them.
pub(crate) fn sum_between(values: &[i128], first: usize, end: usize) -> i128
    requires ordered { first ≤ end }
    requires within { end ≤ length values.now }
    requires few { end ≤ first + 200000 }
    requires modest { (k : ℕ) → first ≤ k → k < end → unsigned_abs (get_or values.now k (pos 0)) < 2 ^ 90 }
    ensures { result ≡ sum_z (λ k. get_or values.now k (pos 0)) (range_with_len first (end - first)) }
{
    let mut sum = 0;
    for place in first..end {
        sum = plus(sum, values[place]);
    }
    sum
}

/// Returns the sum of a row over the classes below a class of round `from`.
pub(crate) fn sum_below(form: &Abstract, row: ClassRow<'_>, from: u8, class: u32) -> i128
    requires some { 0 < from }
    requires row { IsLaterRow (abstract_frame form.now) (lists_of form.now) from row }
    requires class { IsClass (lists_of form.now) from class }
    ensures { result ≡ gathered_below (abstract_frame form.now) (lists_of form.now) row.entry.round from (row_from row.entry.values.now row.entry.start) class }
{
    let run = classes_below(form, from, class, row.round);
    let first = row.start + run.first as usize - 1;
    let end = row.start + run.end as usize - 1;
    sum_between(row.values, first, end)
}

/// Writes for each class of round `from` the sum of a row over the classes below it.
fn gather(form: &Abstract, row: ClassRow<'_>, from: u8, sums: &mut [i128])
    requires some { 0 < from }
    requires row { IsLaterRow (abstract_frame form.now) (lists_of form.now) from row }
    requires wide { class_count (lists_of form.now) from ≤ length sums.old }
    ensures { AreGathered (abstract_frame form.now) (lists_of form.now) row.entry.round from row.entry.values.now row.entry.start sums.new }
{
    for class in 0..form.class_total(from) {
        sums[class as usize] = sum_below(form, row, from, class + 1);
    }
}

/// Returns for each class of round `from` the sum of a row over the classes below it. A row of that round itself is returned as it stands;
/// otherwise the sums are written into `sums`.
pub(crate) fn read_row<'r>(
    form: &Abstract,
    row: ClassRow<'r>,
    from: u8,
    sums: &'r mut [i128],
) -> &'r [i128]
    requires some { 0 < from }
    requires row { IsLaterRow (abstract_frame form.now) (lists_of form.now) from row }
    requires wide { from < row.round → class_count (lists_of form.now) from ≤ length sums.old }
    ensures gathered { AreGathered (abstract_frame form.now) (lists_of form.now) row.entry.round from row.entry.values.now row.entry.start result.now }
    ensures long { class_count (lists_of form.now) from ≤ length result.now }
{
    if row.round == from {
        let count = form.class_total(from) as usize;
        return &row.values[row.start..row.start + count];
    }
    gather(form, row, from, sums);
    sums
}
