//! Sizes of classes, and exact quotients.

ghost use Rattle.std.specs.{Int.RustNames.{int_div}, Prelude.{◌≡◌, ◌<◌, ◌≤◌, ◌*ℤ◌, ℤ, pos}};
ghost use Rattle.gs_model.specs.{Classes.{IsClass, class_size}, Frame.{last_round}};
ghost use Rattle.gs_seq.specs.Abstracts.{abstract_frame, lists_of};

use gs_seq::Abstract;

/// Returns the number of members of a class.
pub fn size_of(form: &Abstract, round: u8, class: u32) -> u32
    requires some { 0 < round }
    requires top { round ≤ last_round (abstract_frame form.now) }
    requires class { IsClass (lists_of form.now) round class }
    ensures value { result ≡ class_size (lists_of form.now) round class }
    ensures members { 0 < result }
{
    form.lossless().classes().size(round, class)
}

/// Returns the share of each of `members` equal members in their sum `together`. If the sum is no multiple of `members`, rounds towards 0.
pub fn over(together: i128, members: u32) -> i128
    requires { 0 < members }
    ensures quotient { result ≡ int_div together (pos members) }
    ensures share { (share : ℤ) → together ≡ share *ℤ pos members → result ≡ share }
{
    together / i128::from(members)
}
