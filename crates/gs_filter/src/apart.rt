//! The search for members of one class whose parents are in different classes.

ghost use Rattle.std.specs.Prelude.{◌≡◌, map, MatchOption};
ghost use Rattle.gs_model.specs.Rows.{rows};
ghost use Rattle.gs_filter.specs.{Tallies.{tallies_of, AreReady}, Filter.{AreParents}};
ghost use Rattle.gs_filter.specs.Faults.{Agree, AllNumbered, AllTogether, AreTogether, AreFirstApartIn, IsApart};

use crate::fault::ClassFault;
use crate::rows::of_round;
use crate::tallies::Tallies;

/// Returns the first pair of signals of one class whose parents are in different classes: the first member of the class, then the other signal.
fn first_apart_in(
    parents: &[u32],
    above: &[u32],
    list: &[u32],
    tallies: &Tallies,
) -> Option<(u32, u32)>
    requires { AreReady parents.now above.now list.now tallies.now }
    ensures { MatchOption result (AreTogether parents.now above.now list.now) (λ pair. AreFirstApartIn parents.now above.now list.now pair.0 pair.1) }
{
    for (at, class) in list.iter().enumerate() {
        let first = tallies.at(*class as usize - 1).first;
        let wanted = above[parents[first as usize] as usize];
        if above[parents[at] as usize] != wanted {
            return Some((first, at as u32));
        }
    }
    None
}

/// Returns the first two members of one class whose parents are in different classes, in the first round that has such members.
pub(crate) fn first_apart(
    parents: &[Vec<u32>],
    lists: &[Vec<u32>],
    tallies: &[Tallies],
) -> Option<ClassFault>
    requires parents { AreParents (rows parents.now) }
    requires agree { Agree (rows parents.now) (rows lists.now) }
    requires numbered { AllNumbered (rows lists.now) }
    requires tallied { tallies.now ≡ map tallies_of (rows lists.now) }
    ensures { MatchOption result (AllTogether (rows parents.now) (rows lists.now)) (IsApart (rows parents.now) (rows lists.now)) }
{
    for round in 2..lists.len() as u32 + 1 {
        let apart = first_apart_in(
            of_round(parents, round),
            of_round(lists, round - 1),
            of_round(lists, round),
            &tallies[round as usize - 1],
        );
        if let Some((a, b)) = apart {
            return Some(ClassFault::ParentsApart { round, a, b });
        }
    }
    None
}
