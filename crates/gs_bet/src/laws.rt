//! Laws on the texts of betting trees.

ghost use Rattle.std.specs.Prelude.{◌≡◌, ℕ, List, IsTrue};
ghost use Rattle.gs_model.specs.Betting.{Bet, HasPlayers};
ghost use Rattle.gs_bet.specs.{Grammar.{is_tree, tree_text, BeginsTree}, Cuts.{Cut, IsCut, cut_text}};

/// No two trees have the same text.
pub fn one_tree()
    ensures { (t u : Bet) → IsTrue (is_tree t) → IsTrue (is_tree u) → tree_text t ≡ tree_text u → t ≡ u }
{}

/// Each prefix of a tree's text is the text of exactly one cut, and the text of each cut is such a prefix.
pub fn one_cut()
    ensures one { (s u : Cut) → IsCut s → IsCut u → cut_text s ≡ cut_text u → s ≡ u }
    ensures some { (bytes : List ℕ) → BeginsTree bytes → (s : Cut) × IsCut s × (cut_text s ≡ bytes) }
    ensures begins { (s : Cut) → IsCut s → BeginsTree (cut_text s) }
{}

/// Each choice of a well-formed tree is player 1's or player 2's.
pub fn trees_have_players()
    ensures { (t : Bet) → IsTrue (is_tree t) → HasPlayers t }
{}
