//! Adding a left node to a matching.

ghost use Rattle.std.specs.Prelude.{◌+◌, ◌<◌, MatchOption, IfOk, length};
ghost use Rattle.gs_model.specs.Rows.{rows};
ghost use Rattle.gs_match.specs.{Adjacency.{AreNeighboursBelow}, Search.{IsMatching, HasClosed}};

use crate::search::{Found, Visit, search};
use std::alloc::{AllocError, Global};

/// Adds the left node `root` to a matching of the left nodes below it. Moves the left nodes on the augmenting path to other right nodes.
/// Returns `None` on success. If no augmenting path exists, returns the visits of the search and changes nothing.
/// `holders` has the left node of each right node, and a visit where it came from: so no holder is searched for, and the sides may differ in size.
pub(crate) fn augment(
    alloc: Global,
    adjacent: &[Vec<u32>],
    holders: &mut [Option<u32>],
    root: u32,
) -> Result<Option<Vec<Visit>>, AllocError>
    requires rows { AreNeighboursBelow (rows adjacent.now) (length holders.old) }
    requires root { root < length adjacent.now }
    requires matching { IsMatching (rows adjacent.now) holders.old root }
    ensures { IfOk result (λ stuck. MatchOption stuck
        (IsMatching (rows adjacent.now) holders.new (root + 1))
        (λ visits. HasClosed (rows adjacent.now) holders.old root visits.items)) }
{
    let (visits, mut place, mut right) = match search(alloc, adjacent, holders, root)? {
        Found::Closed { visits } => return Ok(Some(visits)),
        Found::Free {
            visits,
            place,
            right,
        } => (visits, place, right),
    };
    while place > 0 {
        let visit = visits[place];
        holders[right as usize] = Some(visit.left);
        right = visit.right;
        place = visit.from;
    }
    holders[right as usize] = Some(root);
    Ok(None)
}
