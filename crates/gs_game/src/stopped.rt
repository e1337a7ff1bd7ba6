//! The game that stops after some rounds.

ghost use Rattle.std.specs.Prelude.{◌≡◌, ◌≤◌, ◌++◌, ◌∷◌, [], All, IfOk, OnOk, map};
ghost use Rattle.gs_game.specs.{Games.{HasFewCards, round_rules}, GoingOn.{unbet}, Sequences.{seen_sizes}};
ghost use Rattle.gs_model.specs.Game.{Round as RoundRules};

use crate::faults::GameError;
use crate::game::{Game, Round};
use crate::valid::ValidGame;
use gs_bet::limit_tree;
use gs_card::Ranking;
use std::alloc::{AllocError, Global};

/// Adds a round that deals these numbers of cards, without betting.
fn push_round(
    alloc: Global,
    rounds: &mut Vec<Round>,
    private: u8,
    public: u8,
) -> Result<(), AllocError>
    requires private { private ≤ 2 }
    requires public { public ≤ 3 }
    requires few { All HasFewCards rounds.old.items }
    ensures rounds { OnOk result (map round_rules rounds.new.items ≡ map round_rules rounds.old.items ++ unbet private public ∷ []) }
    ensures sizes { OnOk result (seen_sizes (map round_rules rounds.new.items) ≡ seen_sizes (map round_rules rounds.old.items) ++ private ∷ public ∷ []) }
    ensures few { OnOk result (All HasFewCards rounds.new.items) }
{
    let tree = limit_tree(alloc, 1, 0)?;
    rounds.push(Round {
        private,
        public,
        tree,
    })?;
    Ok(())
}

/// Returns rounds that deal as these do, without betting, and then one that deals no cards.
fn stopped_rounds(alloc: Global, rounds: &[Round]) -> Result<Vec<Round>, AllocError>
    requires { All HasFewCards rounds.now }
    ensures rounds { IfOk result (λ v. map round_rules v.items ≡ map (λ (r : RoundRules). unbet r.private r.public) (map round_rules rounds.now)
        ++ unbet 0 0 ∷ []) }
    ensures sizes { IfOk result (λ v. seen_sizes (map round_rules v.items) ≡ seen_sizes (map round_rules rounds.now) ++ 0 ∷ 0 ∷ []) }
    ensures few { IfOk result (λ v. All HasFewCards v.items) }
{
    let mut stopped = Vec::new(alloc);
    for round in rounds {
        push_round(alloc, &mut stopped, round.private, round.public)?;
    }
    push_round(alloc, &mut stopped, 0, 0)?;
    Ok(stopped)
}

impl ValidGame {
    ghost use Rattle.std.specs.Prelude.{◌≡◌, ◌≢◌, ◌≤◌, IfOk, IfSome, MatchOption, None};
    ghost use Rattle.gs_game.specs.{Games.{game_of}, GoingOn.{StopsAfter, stopped_game}, Refusals.{first_refusal}};
    ghost use Rattle.gs_model.specs.Game.{round_count};

    /// Returns the game that stops after a round: its deals are the pairs of signals of that round. Hands are ranked by the own card there.
    ///
    /// Returns none where a rule refuses that game: where the rounds up to it deal no own card or more than one, and where one more round is too many. Fails
    /// only if memory runs out.
    pub fn stopped(&self, alloc: Global, round: u8) -> Result<Option<ValidGame>, AllocError>
        requires { round ≤ round_count (game_of self.now.game) }
        ensures stops { IfOk result (λ o. IfSome o (λ v. StopsAfter (game_of self.now.game) round (game_of v.game))) }
        // It is returned exactly where no rule refuses it.
        ensures whenever { IfOk result (λ o. MatchOption o (first_refusal (stopped_game (game_of self.now.game) round) ≢ None) (λ v. game_of v.game
            ≡ stopped_game (game_of self.now.game) round)) }
    {
        let game = self.game();
        let rounds = stopped_rounds(alloc, &game.rounds[..usize::from(round)])?;
        let one: u8 = 1;
        let stopped = Game {
            deck: game.deck.copy(alloc)?,
            ranking: Ranking::High,
            bonus: vec![in alloc; one; 1]?,
            ante: 1,
            rounds,
        };
        match stopped.check(alloc) {
            Ok(valid) => Ok(Some(valid)),
            Err(fault) => match fault {
                GameError::Memory => Err(AllocError),
                _ => Ok(None),
            },
        }
    }
}
