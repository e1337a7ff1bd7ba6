//! Valid games.

ghost use Rattle.std.specs.Prelude.{◌≡◌, ◌≤◌, None, length};
ghost use Rattle.gs_card.specs.Decks.{IsDeck};
ghost use Rattle.gs_model.specs.{Deals.{deals as deals_of}, Frame.{frame_of, total_weight}};
ghost use Rattle.gs_game.specs.{Games.{game_of}, Limits.{IsDealable, IsWithinLimits}, Refusals.{first_refusal}, Valid.{IsWalkOf}};

use crate::game::Game;
use crate::positions::{End, Point, Target};

/// A game that keeps every rule, with its betting positions, the number of its deals and their weight.
#[derive(Drop)]
pub struct ValidGame {
    pub game: Game,
    pub(crate) points: Vec<Point>,
    pub(crate) ends: Vec<End>,
    pub(crate) start: Target,
    pub(crate) deals: u32,
    pub(crate) weight: u64,
    pub ghost deck: { IsDeck game.deck },
    pub ghost accepted: { first_refusal (game_of game) ≡ None },
    pub ghost ante: { (1 ≤ game.ante) × (game.ante ≤ 4096) },
    pub ghost limits: { IsWithinLimits (game_of game) },
    pub ghost dealable: { IsDealable (game_of game) },
    pub ghost walked: { IsWalkOf (game_of game) points.items ends.items start },
    pub ghost dealt: { deals ≡ length (deals_of (game_of game)) },
    pub ghost weighed: { weight ≡ total_weight (frame_of (game_of game)) },
}

impl ValidGame {
    ghost use Rattle.std.specs.Prelude.{map};
    ghost use Rattle.gs_model.specs.Walk.{root, walk_start};
    ghost use Rattle.gs_game.specs.{Seen.{end_of, own_point, point_of, target_of}, Valid.{walk_of}};

    /// Returns the game's description.
    pub fn game(&self) -> &Game
        ensures { result.now ≡ self.now.game }
    {
        &self.game
    }

    /// Returns the points, by number.
    pub fn points(&self) -> &[Point]
        ensures { map point_of result.now ≡ map own_point (walk_of (game_of self.now.game)).points }
    {
        &self.points
    }

    /// Returns the ends, by number.
    pub fn ends(&self) -> &[End]
        ensures { map end_of result.now ≡ (walk_of (game_of self.now.game)).ends }
    {
        &self.ends
    }

    /// Returns the position where play starts.
    pub fn start(&self) -> Target
        ensures { target_of result ≡ root (walk_start self.now.game.ante) (walk_of (game_of self.now.game)).points }
    {
        self.start
    }

    /// Returns the number of deals.
    pub fn deal_count(&self) -> u32
        ensures { result ≡ length (deals_of (game_of self.now.game)) }
    {
        self.deals
    }

    /// Returns the sum of the weights of all deals.
    pub fn weight(&self) -> u64
        ensures { result ≡ total_weight (frame_of (game_of self.now.game)) }
    {
        self.weight
    }
}
