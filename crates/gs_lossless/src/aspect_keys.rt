//! An aspect of a round, with the classes by which it counts.

ghost use Rattle.std.specs.{Prelude.{◌≡◌, ◌<◌, true, IfOk, IfSome, get_or, length}, List.{All}};
ghost use Rattle.gs_model.specs.{Frame.{frame_of}, Game.{round_count}, Signals.{signals as signals_in}};
ghost use Rattle.gs_tree.specs.{Trees.{rules_of}, Walk.{last_count, shows_same}};
ghost use Rattle.gs_lossless.specs.Amounts.{AreAmounts, ArePartsOf, HasAspect, HasAspect-prop, keys_of};
ghost use Rattle.gs_lossless.specs.Rivals.{IsRivalTable};
ghost use Rattle.gs_lossless.specs.declared.rivals.RivalTable.{RivalTable as Tabled};
ghost use Rattle.gs_lossless.specs.declared.aspects.Aspect.TheVariants as aspects;

use crate::aspects::{Aspect, child_parts, run_parts};
use crate::boards::are_ones;
use crate::keys::aspect_keys;
use crate::parts::{Part, sums_of};
use crate::rivals::{RivalTable, parts_against, place_of, tables_of};
use crate::runs::{Run, descendants};
use gs_filter::Classes;
use gs_tree::Signals;
use std::alloc::{AllocError, Global};

/// An aspect of a round with its keys: the class by which each counted signal counts.
/// `tables` is empty, or has the boards of the last round. Then every card is single, each player is dealt one private card, and each bonus is 1.
#[derive(Drop)]
pub struct AspectKeys<'a> {
    pub signals: &'a Signals<'a>,
    pub classes: &'a Classes,
    pub aspect: Aspect,
    pub round: u8,
    pub(crate) keys: Vec<u32>,
    tables: Vec<RivalTable>,
    ghost has: { HasAspect (frame_of (rules_of signals.now)) aspect round } by { HasAspect-prop (frame_of (rules_of signals.now)) aspect round },
    ghost are: { keys.items ≡ keys_of (frame_of (rules_of signals.now)) classes.now.lists aspect round },
    ghost last: { 0 < length tables.items → round ≡ round_count (rules_of signals.now) },
    ghost each: { All (IsRivalTable (rules_of signals.now) keys.items) tables.items },
    ghost parents: { classes.now.parents ≡ (frame_of (rules_of signals.now)).parents },
}

/// Returns the tables of the boards, or none unless the round is the last, every card is single, each player is dealt one private card, and each bonus is 1.
fn tables_in(
    alloc: Global,
    signals: &Signals,
    round: u8,
    keys: &[u32],
) -> Result<Vec<RivalTable>, AllocError>
    requires { round ≡ round_count (rules_of signals.now) → length keys.now ≡ last_count (rules_of signals.now) }
    ensures last { IfOk result (λ v. 0 < length v.items → round ≡ round_count (rules_of signals.now)) }
    ensures each { IfOk result (λ v. All (IsRivalTable (rules_of signals.now) keys.now) v.items) }
{
    if round == signals.rounds() && signals.is_plain() && are_ones(&signals.game().game().bonus) {
        tables_of(alloc, signals, keys)
    } else {
        Ok(Vec::new(alloc))
    }
}

impl<'a> AspectKeys<'a> {
    // Returns an aspect of a round with its keys, and no tables.
    pub(crate) fn without_tables(
        alloc: Global,
        signals: &'a Signals<'a>,
        classes: &'a Classes,
        aspect: Aspect,
        round: u8,
    ) -> Result<AspectKeys<'a>, AllocError>
        requires parents { classes.now.parents ≡ (frame_of (rules_of signals.now)).parents }
        requires aspect { HasAspect (frame_of (rules_of signals.now)) aspect round }
        ensures signals { IfOk result (λ at. at.signals.now ≡ signals.entry.now) }
        ensures classes { IfOk result (λ at. at.classes.now ≡ classes.entry.now) }
        ensures aspect { IfOk result (λ at. (at.aspect ≡ aspect) × (at.round ≡ round)) }
    {
        let keys = aspect_keys(alloc, signals, classes, aspect, round)?;
        Ok(AspectKeys {
            signals,
            classes,
            aspect,
            round,
            keys,
            tables: Vec::new(alloc),
        })
    }

    // Adds the tables.
    pub(crate) fn with_tables(self, alloc: Global) -> Result<AspectKeys<'a>, AllocError>
        ensures signals { IfOk result (λ at. at.signals.now ≡ self.entry.signals.now) }
        ensures classes { IfOk result (λ at. at.classes.now ≡ self.entry.classes.now) }
        ensures aspect { IfOk result (λ at. (at.aspect ≡ self.entry.aspect) × (at.round ≡ self.entry.round)) }
    {
        let tables = tables_in(alloc, self.signals, self.round, &self.keys)?;
        Ok(AspectKeys {
            signals: self.signals,
            classes: self.classes,
            aspect: self.aspect,
            round: self.round,
            keys: self.keys,
            tables,
        })
    }

    /// Returns an aspect of a round with its keys.
    pub fn of(
        alloc: Global,
        signals: &'a Signals<'a>,
        classes: &'a Classes,
        aspect: Aspect,
        round: u8,
    ) -> Result<AspectKeys<'a>, AllocError>
        requires parents { classes.now.parents ≡ (frame_of (rules_of signals.now)).parents }
        requires aspect { HasAspect (frame_of (rules_of signals.now)) aspect round }
        ensures signals { IfOk result (λ at. at.signals.now ≡ signals.entry.now) }
        ensures classes { IfOk result (λ at. at.classes.now ≡ classes.entry.now) }
        ensures aspect { IfOk result (λ at. (at.aspect ≡ aspect) × (at.round ≡ round)) }
    {
        let at = AspectKeys::without_tables(alloc, signals, classes, aspect, round)?;
        at.with_tables(alloc)
    }

    // Returns the place of the table of a signal's board, none if there are no tables.
    fn table_of(&self, signal: u32) -> Option<usize>
        ensures within { IfSome result (λ place. (place < length self.now.tables.items) × (signal < last_count (rules_of self.now.signals.now))) }
        ensures same { IfSome result (λ place. (d : Tabled)
            → shows_same (rules_of self.now.signals.now) signal (get_or self.now.tables.items place d).first ≡ true) }
    {
        let (firsts, _) = self.signals.boards();
        let first = firsts.get(signal as usize)?;
        place_of(&self.tables, *first)
    }

    // Returns the parts of a signal's deals.
    // They are read off the board where there is a table of it: deals one by one take twice the instructions.
    fn deal_parts(&self, alloc: Global, signal: u32) -> Result<Vec<Part>, AllocError>
        requires aspect { self.now.aspect ≡ aspects.Deals }
        requires in_range { signal < length (signals_in (rules_of self.now.signals.now) self.now.round) }
        ensures { let f = frame_of (rules_of self.now.signals.now) in
            IfOk result (λ v. ArePartsOf f self.now.classes.now.lists self.now.aspect self.now.round signal v.items) }
    {
        let signals = self.signals;
        if let Some(place) = self.table_of(signal) {
            let rivals = &self.tables[place].rivals;
            return parts_against(alloc, rivals, signals.strength(signal), signal);
        }
        let run = descendants(signals, self.round, signal);
        let by_outcome = self.round == signals.rounds();
        run_parts(alloc, signals, &self.keys, by_outcome, run)
    }

    /// Returns the sums of a signal, in ascending order of class and then outcome. Two signals have equal lists of sums exactly if they agree on the aspect.
    pub fn sums(&self, alloc: Global, signal: u32) -> Result<Vec<Part>, AllocError>
        requires { signal < length (signals_in (rules_of self.now.signals.now) self.now.round) }
        ensures { let f = frame_of (rules_of self.now.signals.now) in
            IfOk result (λ v. AreAmounts f self.now.classes.now.lists self.now.aspect self.now.round signal v.items) }
    {
        let parts = match self.aspect {
            Aspect::Children => {
                let (first, end) = self.signals.children(self.round, signal);
                child_parts(alloc, &self.keys, Run { first, end })?
            }
            Aspect::Deals => self.deal_parts(alloc, signal)?,
        };
        sums_of(alloc, parts)
    }
}
