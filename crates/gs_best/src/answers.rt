//! Best answers, in the literature best responses.

ghost use Rattle.std.specs.Prelude.{◌-◌, ◌<◌, ◌≤◌, IfOk};
ghost use Rattle.gs_model.specs.{BestAnswers.{IsFirstBestPlan}, Frame.{other_player}};
ghost use Rattle.gs_seq.specs.{Abstracts.{abstract_frame, lists_of}, Plans.{IsPlanOf, class_plan, lifted}};
ghost use Rattle.gs_best.specs.Answers.{AreChoices, IsPaidMost, NoneGainsMore};

use crate::listing::own_moves;
use crate::putting::put_all;
use crate::side::Side;
use crate::walk::filled;
use gs_seq::{Abstract, Plan};
use std::alloc::{AllocError, Global};

/// Returns a player's first best answer to the other's plan, in the literature a best response. Its total is 1.
/// At each point and class the first move of greatest worth has all the weight that comes there.
pub fn best(alloc: Global, form: &Abstract, player: u8, other: &Plan) -> Result<Plan, AllocError>
    requires some { 0 < player }
    requires two { player ≤ 2 }
    requires other { IsPlanOf (abstract_frame form.now) (lists_of form.now) (other_player player) other.now }
    ensures plan { IfOk result (λ x. IsPlanOf (abstract_frame form.now) (lists_of form.now) player x) }
    ensures best { IfOk result (λ x. let f = abstract_frame form.now in let lists = lists_of form.now in
        IsFirstBestPlan f lists player (lifted f lists other.now) (class_plan f lists x)) }
    ensures bound { IfOk result (λ x. let f = abstract_frame form.now in let lists = lists_of form.now in
        NoneGainsMore f player (lifted f lists other.now) (lifted f lists x)) }
    ensures paid { IfOk result (λ x. let f = abstract_frame form.now in let lists = lists_of form.now in
        IsPaidMost f lists player (lifted f lists other.now) (lifted f lists x)) }
{
    let side = Side {
        form,
        player,
        other,
    };
    let table = filled(alloc, &side)?;
    put_all(alloc, &side, &table)
}

/// Returns the first move of greatest worth against the other's plan, for each own point in order and each class of the point's round.
/// The list includes points and classes that the player's own moves never reach.
pub fn choices(
    alloc: Global,
    form: &Abstract,
    player: u8,
    other: &Plan,
) -> Result<Vec<u8>, AllocError>
    requires some { 0 < player }
    requires two { player ≤ 2 }
    requires other { IsPlanOf (abstract_frame form.now) (lists_of form.now) (other_player player) other.now }
    ensures { IfOk result (λ v. let f = abstract_frame form.now in let lists = lists_of form.now in
        AreChoices f lists player (lifted f lists other.now) v.items) }
{
    let side = Side {
        form,
        player,
        other,
    };
    let table = filled(alloc, &side)?;
    own_moves(alloc, &side, &table)
}
