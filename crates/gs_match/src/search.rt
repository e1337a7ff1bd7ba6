//! The search for an augmenting path from a left node.

ghost use Rattle.std.specs.Prelude.{◌<◌, IfOk, length};
ghost use Rattle.gs_model.specs.Rows.{rows};
ghost use Rattle.gs_match.specs.{Adjacency.{AreNeighboursBelow}, Search.{visit, IsMatching, IsTree, Extends, IsRowEnd, IsFound}};

use std::alloc::{AllocError, Global};

/// A left node of the search, and the right node it is matched with. `from` is the place of a visit whose left node has an edge to that right node.
/// The first visit has no right node; its `right` and `from` are 0.
#[derive(Clone, Copy)]
pub(crate) struct Visit {
    pub(crate) left: u32,
    pub(crate) right: u32,
    pub(crate) from: usize,
}

/// What a search found.
#[derive(Drop)]
pub(crate) enum Found {
    /// A free right node, a neighbour of the left node of the visit at this place.
    Free {
        visits: Vec<Visit>,
        place: usize,
        right: u32,
    },
    /// All neighbours of the visited left nodes are matched with visited left nodes.
    Closed {
        visits: Vec<Visit>,
    },
}

/// Goes through the neighbours of a visit's left node: marks each new one as reached and visits the left node matched with it.
/// Stops at the first free neighbour and returns it; returns `None` if there is no free one.
fn visit_row(
    adjacent: &[Vec<u32>],
    holders: &[Option<u32>],
    reached: &mut [bool],
    visits: &mut Vec<Visit>,
    place: usize,
) -> Result<Option<u32>, AllocError>
    requires place { place < length visits.old.items }
    requires rows { AreNeighboursBelow (rows adjacent.now) (length holders.now) }
    requires left { (visit visits.old.items place).left < length adjacent.now }
    requires matching { IsMatching (rows adjacent.now) holders.now (visit visits.old.items 0).left }
    requires tree { IsTree (rows adjacent.now) holders.now visits.old.items reached.old }
    ensures tree { IfOk result (λ _. IsTree (rows adjacent.now) holders.now visits.new.items reached.new) }
    ensures extends { IfOk result (λ _. Extends visits.old.items reached.old visits.new.items reached.new) }
    ensures end { IfOk result (λ end. IsRowEnd (rows adjacent.now) holders.now visits.new.items reached.new place end) }
{
    let left = visits[place].left;
    for right in &adjacent[left as usize] {
        let right = *right;
        if reached[right as usize] {
            continue;
        }
        match holders[right as usize] {
            None => return Ok(Some(right)),
            Some(left) => {
                reached[right as usize] = true;
                visits.push(Visit {
                    left,
                    right,
                    from: place,
                })?;
            }
        }
    }
    Ok(None)
}

/// Searches breadth first for an augmenting path from the left node `root`.
pub(crate) fn search(
    alloc: Global,
    adjacent: &[Vec<u32>],
    holders: &[Option<u32>],
    root: u32,
) -> Result<Found, AllocError>
    requires rows { AreNeighboursBelow (rows adjacent.now) (length holders.now) }
    requires root { root < length adjacent.now }
    requires matching { IsMatching (rows adjacent.now) holders.now root }
    ensures { IfOk result (IsFound (rows adjacent.now) holders.now root) }
{
    let mut reached = vec![in alloc; false; holders.len()]?;
    let mut visits = Vec::new(alloc);
    visits.push(Visit {
        left: root,
        right: 0,
        from: 0,
    })?;
    let mut place = 0;
    while place < visits.len() {
        if let Some(right) = visit_row(adjacent, holders, &mut reached, &mut visits, place)? {
            return Ok(Found::Free {
                visits,
                place,
                right,
            });
        }
        place += 1;
    }
    Ok(Found::Closed { visits })
}
