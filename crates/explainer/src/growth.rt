//! A core that grows: facts are dropped, and for each a present fact that blocks it is kept, until all that conflict with kept
//! facts are dropped.

ghost use Rattle.std.specs.Prelude.{◌≡◌, ◌↔◌, ◌<◌, ℕ, [], length, slice_index, All, AllPairs, ◌≢◌, Contains, IfOk, OnOk};
ghost use Rattle.cq_terms.specs.Lists.{IsAscending};
ghost use Rattle.priority_graph.specs.Priority.{Conflict, IsOver};
ghost use Rattle.priority_graph.specs.Cores.{IsBlocked};
ghost use Rattle.explainer.specs.Growth.{AreSettled, Drops, IsSettled, Keeps};
ghost use Rattle.explainer.specs.Sets.{Meets};

use crate::fact_set::FactSet;
use cq_terms::{Conflicts, NoMemory, has_sorted};
use priority_graph::Better;
use std::alloc::Global;

/// The facts that are kept and dropped so far.
#[derive(Drop)]
pub(crate) struct Growing {
    pub(crate) kept: FactSet,
    pub(crate) dropped: FactSet,
}

impl Growing {
    /// Keeps the given facts, and drops none.
    pub(crate) fn from_start(alloc: Global, start: &[u32]) -> Result<Growing, NoMemory>
        ensures kept { IfOk result (λ core. (i : ℕ) → Contains core.kept i ↔ Contains start.now i) }
        ensures dropped { IfOk result (λ core. core.dropped ≡ []) }
    {
        let mut kept = FactSet::new(alloc);
        for fact in start {
            kept.put(*fact)?;
        }
        let dropped = FactSet::new(alloc);
        Ok(Growing { kept, dropped })
    }

    /// Drops each of the facts.
    pub(crate) fn drop_each(
        &mut self,
        conflicts: &Conflicts,
        better: &Better,
        present: &[u32],
        facts: &[u32],
    ) -> Result<(), NoMemory>
        requires over { IsOver better.now conflicts.now }
        requires ascending { IsAscending present.now }
        requires known { All (λ j. j < conflicts.now.facts) facts.now }
        requires present { All (IsSettled better.now present.now) facts.now }
        requires settled { AreSettled better.now self.old }

        ensures settled { OnOk result (AreSettled better.now self.new) }
        ensures exact { OnOk result
            (Drops better.now present.now (Contains facts.now) self.old self.new) }
    {
        for fact in facts {
            self.drop_fact(conflicts, better, present, *fact)?;
        }
        Ok(())
    }

    /// Drops the fact, and keeps a fact that blocks it unless it is self-inconsistent.
    fn drop_fact(
        &mut self,
        conflicts: &Conflicts,
        better: &Better,
        present: &[u32],
        fact: u32,
    ) -> Result<(), NoMemory>
        requires over { IsOver better.now conflicts.now }
        requires ascending { IsAscending present.now }
        requires known { fact < conflicts.now.facts }
        requires present { IsSettled better.now present.now fact }
        requires settled { AreSettled better.now self.old }

        ensures settled { OnOk result (AreSettled better.now self.new) }
        ensures exact { OnOk result (Drops better.now present.now (λ j. j ≡ fact) self.old self.new) }
    {
        self.settle(conflicts, better, present, fact)?;
        self.dropped.put(fact)
    }

    /// Keeps a fact that blocks the fact unless it is self-inconsistent.
    fn settle(
        &mut self,
        conflicts: &Conflicts,
        better: &Better,
        present: &[u32],
        fact: u32,
    ) -> Result<(), NoMemory>
        requires over { IsOver better.now conflicts.now }
        requires ascending { IsAscending present.now }
        requires known { fact < conflicts.now.facts }
        requires present { IsSettled better.now present.now fact }

        ensures exact { OnOk result (Keeps better.now present.now fact self.old.kept self.new.kept) }
        ensures same_dropped { OnOk result (self.new.dropped ≡ self.old.dropped) }
    {
        if conflicts.is_own(fact) {
            return Ok(());
        }
        self.block(better, present, fact)
    }

    /// Drops all that conflict with the kept fact.
    pub(crate) fn drop_rivals(
        &mut self,
        conflicts: &Conflicts,
        better: &Better,
        present: &[u32],
        kept: u32,
    ) -> Result<(), NoMemory>
        requires over { IsOver better.now conflicts.now }
        requires ascending { IsAscending present.now }
        requires known { kept < conflicts.now.facts }
        requires kept { Contains self.old.kept kept }
        requires blocked { (j : ℕ) → Conflict better.now kept j
            → IsBlocked better.now (Contains present.now) j }
        requires settled { AreSettled better.now self.old }

        ensures settled { OnOk result (AreSettled better.now self.new) }
        ensures exact { OnOk result
            (Drops better.now present.now (Conflict better.now kept) self.old self.new) }
    {
        for rival in conflicts.of(kept) {
            self.drop_rival(better, present, kept, *rival)?;
        }
        Ok(())
    }

    /// Drops a fact that conflicts with a kept one, unless it was dropped before.
    fn drop_rival(
        &mut self,
        better: &Better,
        present: &[u32],
        kept: u32,
        rival: u32,
    ) -> Result<(), NoMemory>
        requires ascending { IsAscending present.now }
        requires known { rival < better.now.facts }
        requires kept { Contains self.old.kept kept }
        requires conflicting { Conflict better.now kept rival }
        requires blocked { IsBlocked better.now (Contains present.now) rival }
        requires settled { AreSettled better.now self.old }

        ensures settled { OnOk result (AreSettled better.now self.new) }
        ensures exact { OnOk result (Drops better.now present.now (λ j. j ≡ rival) self.old self.new) }
    {
        if self.dropped.has(rival) {
            return Ok(());
        }
        self.settle_rival(better, present, kept, rival)?;
        self.dropped.put(rival)
    }

    /// Keeps a fact that blocks the rival of a kept one where it is better than that one.
    fn settle_rival(
        &mut self,
        better: &Better,
        present: &[u32],
        kept: u32,
        rival: u32,
    ) -> Result<(), NoMemory>
        requires ascending { IsAscending present.now }
        requires known { rival < better.now.facts }
        requires kept { Contains self.old.kept kept }
        requires conflicting { Conflict better.now kept rival }
        requires blocked { IsBlocked better.now (Contains present.now) rival }

        ensures exact { OnOk result (Keeps better.now present.now rival self.old.kept self.new.kept) }
        ensures same_dropped { OnOk result (self.new.dropped ≡ self.old.dropped) }
    {
        if !better.over(rival, kept) {
            return Ok(());
        }
        self.block(better, present, rival)
    }

    /// Keeps a present fact that blocks the fact, unless a kept one does.
    fn block(&mut self, better: &Better, present: &[u32], fact: u32) -> Result<(), NoMemory>
        requires ascending { IsAscending present.now }
        requires known { fact < better.now.facts }
        requires blocked { IsBlocked better.now (Contains present.now) fact }

        ensures exact { OnOk result (Keeps better.now present.now fact self.old.kept self.new.kept) }
        ensures same_dropped { OnOk result (self.new.dropped ≡ self.old.dropped) }
    {
        let blockers = better.blockers(fact);
        if self.kept.meets(blockers) {
            return Ok(());
        }
        self.kept.put(first_in(blockers, present))
    }

    /// How many facts are kept.
    pub(crate) fn count(&self) -> usize
        ensures exact { result ≡ length self.now.kept }
        ensures once { AllPairs (λ i j. i ≢ j) self.now.kept }
    {
        self.kept.len()
    }

    /// The fact that was kept at the place.
    pub(crate) fn kept_at(&self, place: usize) -> u32
        requires inside { place < length self.now.kept }

        ensures exact { result ≡ slice_index self.now.kept place }
    {
        self.kept.at(place)
    }
}

/// The first of the numbers that the ascending list has.
fn first_in(numbers: &[u32], list: &[u32]) -> u32
    requires ascending { IsAscending list.now }
    requires some { Meets numbers.now list.now }

    ensures of { Contains numbers.now result }
    ensures inside { Contains list.now result }
{
    for number in numbers {
        if has_sorted(list, *number) {
            return *number;
        }
    }
    unreachable!()
}
