//! Classes of signals as an information filter.

ghost use Rattle.std.specs.Prelude.{◌≡◌, ◌-◌, ◌<◌, ◌≤◌, length, IfOk, IfErr};
ghost use Rattle.gs_model.specs.{Rows.{rows}, Classes.{list_of, class_of, class_count, class_size, first_member, IsClass, IsClasses}};
ghost use Rattle.gs_filter.specs.Filter.{AreParents, IsParentClass, single_classes};

use crate::apart::first_apart;
use crate::fault::{ClassError, ClassFault};
use crate::rows::{copy_of, counted, first_length, of_round};
use crate::tallies::{Tallies, tally_lists};
use crate::tally::Tally;
use std::alloc::{AllocError, Global};
use std::marker::Model;

/// An information filter: for each round the class of each signal. Members of one class have parents of one class.
/// At a betting point a class is what the literature calls an information set after abstraction, or a bucket.
///
/// The filter keeps its own copy of the parents. Rounds count from 1, signals from 0, and classes from 1 in order of their first members.
#[derive(Drop)]
pub struct Classes {
    parents: Vec<Vec<u32>>,
    lists: Vec<Vec<u32>>,
    tallies: Vec<Tallies>,
    ghost are_parents: { AreParents (rows parents.items) },
    ghost are_classes: { IsClasses (rows parents.items) (rows lists.items) },
}

impl Model for Classes {
    ghost use Rattle.std.specs.Prelude.{◌≡◌, map};
    ghost use Rattle.gs_filter.specs.Filter.{Filter};

    ghost Value = { Filter };

    ghost use Rattle.gs_model.specs.Rows.{rows};
    ghost use Rattle.gs_filter.specs.Tallies.{tallies_of};

    ghost view = { λ c. record { parents = rows c.parents.items; lists = rows c.lists.items; forest = c.are_parents; classes = c.are_classes } };

    ghost invariant = { λ c. c.tallies.items ≡ map tallies_of (rows c.lists.items) };
}

impl Classes {
    ghost use Rattle.gs_filter.specs.{Faults.{IsErrorOf}, Tallies.{tally_of}};

    /// Makes classes from these lists over these parents. Fails with the first rule that the lists break, or if memory runs out.
    pub fn new(
        alloc: Global,
        parents: &[Vec<u32>],
        lists: Vec<Vec<u32>>,
    ) -> Result<Classes, ClassError>
        requires { AreParents (rows parents.now) }
        ensures parents { IfOk result (λ c. c.parents ≡ rows parents.now) }
        ensures lists { IfOk result (λ c. c.lists ≡ rows lists.items) }
        ensures classes { IfOk result (λ c. IsClasses c.parents c.lists) }
        ensures refused { IfErr result (IsErrorOf (rows parents.now) (rows lists.items)) }
    {
        if let Some(round) = first_length(parents, &lists) {
            return Err(ClassError::Fault(ClassFault::Length { round }));
        }
        let tallies = tally_lists(alloc, &lists)?;
        if let Some(fault) = first_apart(parents, &lists, &tallies) {
            return Err(ClassError::Fault(fault));
        }
        Ok(Classes {
            parents: copy_of(alloc, parents)?,
            lists,
            tallies,
        })
    }

    /// Makes classes from lists that are known to be classes over these parents, without checking them again.
    pub fn of_filter(
        alloc: Global,
        parents: &[Vec<u32>],
        lists: Vec<Vec<u32>>,
    ) -> Result<Classes, AllocError>
        requires parents { AreParents (rows parents.now) }
        requires classes { IsClasses (rows parents.now) (rows lists.items) }
        ensures parents { IfOk result (λ c. c.parents ≡ rows parents.now) }
        ensures lists { IfOk result (λ c. c.lists ≡ rows lists.items) }
    {
        match tally_lists(alloc, &lists) {
            Ok(tallies) => Ok(Classes {
                parents: copy_of(alloc, parents)?,
                lists,
                tallies,
            }),
            Err(ClassError::Memory) => Err(AllocError),
            Err(_) => unreachable!(),
        }
    }

    /// Returns the classes in which every signal is a class of its own.
    pub fn identity(alloc: Global, parents: &[Vec<u32>]) -> Result<Classes, AllocError>
        requires { AreParents (rows parents.now) }
        ensures parents { IfOk result (λ c. c.parents ≡ rows parents.now) }
        ensures lists { IfOk result (λ c. c.lists ≡ single_classes (rows parents.now)) }
    {
        let lists = counted(alloc, parents)?;
        Classes::of_filter(alloc, parents, lists)
    }

    /// Returns the number of rounds.
    pub fn rounds(&self) -> u8
        ensures value { result ≡ length self.now.lists }
    {
        self.lists.len() as u8
    }

    /// Returns the number of signals of a round.
    pub fn signals(&self, round: u8) -> u32
        requires some { 0 < round }
        requires top { round ≤ length self.now.lists }
        ensures { result ≡ length (list_of self.now.lists round) }
    {
        of_round(&self.lists, u32::from(round)).len() as u32
    }

    /// Returns the class of a signal.
    pub fn class_of(&self, round: u8, signal: u32) -> u32
        requires some { 0 < round }
        requires top { round ≤ length self.now.lists }
        requires within { signal < length (list_of self.now.lists round) }
        ensures value { result ≡ class_of self.now.lists round signal }
        ensures class { IsClass self.now.lists round result }
    {
        of_round(&self.lists, u32::from(round))[signal as usize]
    }

    /// Returns the number of classes of a round.
    pub fn classes(&self, round: u8) -> u32
        requires some { 0 < round }
        requires top { round ≤ length self.now.lists }
        ensures { result ≡ class_count self.now.lists round }
    {
        self.tallies[round as usize - 1].len() as u32
    }

    /// Returns the number of members of a class.
    pub fn size(&self, round: u8, class: u32) -> u32
        requires some { 0 < round }
        requires top { round ≤ length self.now.lists }
        requires class { IsClass self.now.lists round class }
        ensures { result ≡ class_size self.now.lists round class }
    {
        self.tally_at(round, class).size
    }

    /// Returns the first member of a class.
    pub fn first(&self, round: u8, class: u32) -> u32
        requires some { 0 < round }
        requires top { round ≤ length self.now.lists }
        requires class { IsClass self.now.lists round class }
        ensures value { result ≡ first_member self.now.lists round class }
        ensures within { result < length (list_of self.now.lists round) }
        ensures member { class_of self.now.lists round result ≡ class }
    {
        self.tally_at(round, class).first
    }

    /// Returns the class of the round before that has the parents of all members of a class.
    pub fn parent_class(&self, round: u8, class: u32) -> u32
        requires some { 1 < round }
        requires top { round ≤ length self.now.lists }
        requires class { IsClass self.now.lists round class }
        ensures value { IsParentClass self.now round class result }
        ensures class { IsClass self.now.lists (round - 1) result }
    {
        let first = self.first(round, class);
        let parent = of_round(&self.parents, u32::from(round))[first as usize];
        self.class_of(round - 1, parent)
    }

    /// Returns the size and the first member of a class.
    fn tally_at(&self, round: u8, class: u32) -> Tally
        requires some { 0 < round }
        requires top { round ≤ length self.now.lists }
        requires class { IsClass self.now.lists round class }
        ensures { result ≡ tally_of (list_of self.now.lists round) class }
    {
        self.tallies[round as usize - 1].at(class as usize - 1)
    }

    /// Returns for each round the class of each signal.
    pub fn lists(&self) -> &[Vec<u32>]
        ensures value { rows result.now ≡ self.now.lists }
    {
        &self.lists
    }

    /// Returns for each round the parent of each signal, as given to the constructor.
    pub fn parents(&self) -> &[Vec<u32>]
        ensures value { rows result.now ≡ self.now.parents }
    {
        &self.parents
    }
}
