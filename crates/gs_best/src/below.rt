//! The signals and the classes of a later round below a class: over lossless classes both are runs of numbers.

ghost use Rattle.std.specs.Prelude.{◌<◌, ◌≤◌};
ghost use Rattle.gs_model.specs.{Classes.{IsClass, first_member}, Frame.{last_round}};
ghost use Rattle.gs_lossless.specs.Amounts.{IsRunIn};
ghost use Rattle.gs_seq.specs.Abstracts.{abstract_frame, lists_of};
ghost use Rattle.gs_best.specs.Runs.{IsClassRun};

use gs_lossless::{Run, descendants_in};
use gs_seq::Abstract;

/// Returns the signals of round `to` that descend from the first member of a class of round `from`. In its own round it is that member alone.
pub fn run_below(form: &Abstract, from: u8, class: u32, to: u8) -> Run
    requires some { 0 < from }
    requires onward { from ≤ to }
    requires top { to ≤ last_round (abstract_frame form.now) }
    requires class { IsClass (lists_of form.now) from class }
    ensures { IsRunIn (abstract_frame form.now) to from (first_member (lists_of form.now) from class) result.first result.end }
{
    let member = form.first_of(from, class);
    descendants_in(form.lossless().signals(), from, member, to)
}

/// A run of classes of a round, from `first` up to `end`, which is not one of them.
#[derive(Clone, Copy)]
pub struct ClassRun {
    pub first: u32,
    pub end: u32,
}

/// Returns the classes of round `to` that descend from a class of round `from`. In its own round it is that class alone.
pub fn classes_below(form: &Abstract, from: u8, class: u32, to: u8) -> ClassRun
    requires some { 0 < from }
    requires onward { from ≤ to }
    requires top { to ≤ last_round (abstract_frame form.now) }
    requires class { IsClass (lists_of form.now) from class }
    ensures { IsClassRun (abstract_frame form.now) (lists_of form.now) to from class result.first result.end }
{
    let run = run_below(form, from, class, to);
    if run.first == run.end {
        return ClassRun { first: 1, end: 1 };
    }
    let first = form.class_at(to, run.first);
    let past = form.class_total(to) + 1;
    for next in first + 1..past {
        if form.first_of(to, next) >= run.end {
            return ClassRun { first, end: next };
        }
    }
    ClassRun { first, end: past }
}
