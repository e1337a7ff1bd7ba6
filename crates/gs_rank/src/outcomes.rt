//! Categories of hands, and who wins how much.

ghost use Rattle.std.specs.Prelude.{◌≡◌};
ghost use Rattle.gs_model.specs.Outcome.{IsBonus, category, outcome};
ghost use Rattle.gs_card.specs.Rankings.{ranking_of};
ghost use Rattle.gs_rank.specs.Hands.{IsStrength};

use gs_card::Ranking;

/// Returns the category of a strength, from 0 for the lowest. By the own card there is one. By a pair it is 1 where some public card has the own card's
/// rank, else 0. By three cards it is, in this order: high card, pair, flush, straight, three of a kind, straight flush.
pub fn category(ranking: Ranking, strength: u32) -> u8
    requires { IsStrength (ranking_of ranking) strength }
    ensures { result ≡ category (ranking_of ranking) strength }
{
    match ranking {
        Ranking::High => 0,
        Ranking::Pair => (strength / 64) as u8,
        Ranking::Three => (strength / 262144) as u8,
    }
}

/// Returns the outcome of the strength `a` against `b`: the bonus of `a`'s category where `a` is greater, 0 where they are equal, and minus the bonus of
/// `b`'s category where `b` is greater. `bonus` has a number from 1 to 9 for each category.
pub fn outcome(bonus: &[u8], ranking: Ranking, a: u32, b: u32) -> i8
    requires bonuses { IsBonus (ranking_of ranking) bonus.now }
    requires first { IsStrength (ranking_of ranking) a }
    requires second { IsStrength (ranking_of ranking) b }
    ensures { result ≡ outcome bonus.now (ranking_of ranking) a b }
{
    if a > b {
        bonus[usize::from(category(ranking, a))] as i8
    } else if a < b {
        -(bonus[usize::from(category(ranking, b))] as i8)
    } else {
        0
    }
}
