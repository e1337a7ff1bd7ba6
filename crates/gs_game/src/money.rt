//! What the players put along the paths of a betting tree.

ghost use Rattle.std.specs.Prelude.{◌≡◌, ◌≤◌, ◌<◌, ◌+◌, ◌^◌, IfOk};
ghost use Rattle.gs_bet.specs.TreeView.{plain};
ghost use Rattle.gs_game.specs.Money.{Fits, Searched, has_even, most_put, one_after, put_above, two_after, uneven_path};

use gs_bet::Tree;
use std::alloc::AllocError;

/// What each player has put, in chips.
#[derive(Clone, Copy)]
pub struct Put {
    pub one: u32,
    pub two: u32,
}

impl Put {
    /// Returns what both have put after a player's move.
    pub fn after(self, player: u8, chips: u16) -> Put
        requires one { self.one ≤ 2 ^ 24 }
        requires two { self.two ≤ 2 ^ 24 }
        ensures one { result.one ≡ one_after player chips self.one }
        ensures two { result.two ≡ two_after player chips self.two }
    {
        let chips = u32::from(chips);
        if player == 1 {
            Put {
                one: self.one + chips,
                two: self.two,
            }
        } else {
            Put {
                one: self.one,
                two: self.two + chips,
            }
        }
    }
}

/// Returns whether some path ends the round evenly.
pub fn has_even(tree: &Tree) -> bool
    ensures { result ≡ has_even (plain tree.now) }
{
    match tree {
        Tree::Act(act) => {
            for next in &act.moves {
                if has_even(&next.next) {
                    return true;
                }
            }
            false
        }
        Tree::Fold => false,
        Tree::Even => true,
    }
}

/// Looks for the first even leaf, in tree order, where the players have put different amounts. Returns whether there is one, and adds the letters that lead
/// there to `path`.
pub fn find_uneven(tree: &Tree, put: Put, path: &mut Vec<u8>) -> Result<bool, AllocError>
    requires { Fits put.one put.two (plain tree.now) }
    ensures { IfOk result (λ found. Searched path.old.items path.new.items found (uneven_path path.old.items put.one put.two (plain tree.now))) }
{
    match tree {
        Tree::Act(act) => {
            for next in &act.moves {
                path.push(next.letter)?;
                if find_uneven(&next.next, put.after(act.player, next.chips), path)? {
                    return Ok(true);
                }
                path.pop();
            }
            Ok(false)
        }
        Tree::Fold => Ok(false),
        Tree::Even => Ok(put.one != put.two),
    }
}

/// Returns the most that one player has put at a leaf of the tree, where `above` more is put after an even leaf.
pub fn most_above(tree: &Tree, put: Put, above: u32) -> u32
    requires fits { Fits put.one put.two (plain tree.now) }
    requires above { above ≤ 2 ^ 28 }
    ensures most { result ≡ most_put (put_above above) put.one put.two (plain tree.now) }
    ensures small { result ≤ 2 ^ 24 + above }
{
    match tree {
        Tree::Act(act) => {
            let mut most = 0;
            for next in &act.moves {
                most = most_above(&next.next, put.after(act.player, next.chips), above).max(most);
            }
            most
        }
        Tree::Fold => put.one.max(put.two),
        Tree::Even => put.one.max(put.two) + above,
    }
}
