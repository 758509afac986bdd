//! The rule of a `done` line.

ghost use Rattle.std.specs.Prelude.{◌≡◌, ◌↔◌, ◌<◌, ◌+◌, [], ℕ, List, IsTrue, IfOk, Some, length, slice_get, map, Option};
ghost use Rattle.std.specs.List.{list_all};
ghost use Rattle.clause_meaning.specs.Literals as words;
ghost use Rattle.clause_meaning.specs.Literals.{AreBelow};
ghost use Rattle.cq_terms.specs.Knowledge.{Knowledge};
ghost use Rattle.cq_meaning.specs.ConflictGraphs.{AreConflictsOf};
ghost use Rattle.priority_graph.specs.Inputs.{IsPriorityOf};
ghost use Rattle.priority_graph.specs.Priority.{IsOver};
ghost use Rattle.priority_graph.specs.Split.{has};
ghost use Rattle.report_laws.specs.AtStanding as at_standing;
ghost use Rattle.report_laws.specs.AtStanding.{DoneAt, SpentAt, evidence_at, facts_of};
ghost use Rattle.report_laws.specs.Standing.{Core};
ghost use Rattle.plain_finding.specs.Kept.{HasLive};
ghost use Rattle.report_parts.specs.Tests.{passes};

use crate::standing::Standing;
use clause_meaning::variable_of;
use cq_terms::{Conflicts, NoMemory};
use plain_finding::Clauses;
use priority_graph::Better;
use report_parts::{Core, core_at};
use report_text::{How, Question};
use std::alloc::Global;

/// Whether the core keeps the fact of each literal.
fn keeps_each(core: &Core, literals: &[u32]) -> bool
    ensures exact { result ≡ list_all (λ l. has core.now.kept (words.variable_of l)) literals.now }
{
    for literal in literals {
        if !core.has_kept(variable_of(*literal)) {
            return false;
        }
    }
    true
}

/// Whether the core drops the fact of each literal.
fn drops_each(core: &Core, literals: &[u32]) -> bool
    ensures exact { result ≡ list_all (λ l. has core.now.dropped (words.variable_of l)) literals.now }
{
    for literal in literals {
        if !core.has_dropped(variable_of(*literal)) {
            return false;
        }
    }
    true
}

/// Whether the core keeps all facts of the literals.
fn keeps_facts(core: &Core, literals: &[u32]) -> bool
    ensures exact { result ≡ list_all (has core.now.kept) (facts_of literals.now) }
{
    keeps_each(core, literals)
}

/// Whether the core drops all facts of the literals.
fn drops_facts(core: &Core, literals: &[u32]) -> bool
    ensures exact { result ≡ list_all (has core.now.dropped) (facts_of literals.now) }
{
    drops_each(core, literals)
}

impl Standing {
    /// Whether the core shows what is asked.
    fn is_shown_by(&self, core: &Core) -> bool
        ensures exact { (kb : Knowledge) → result
            ≡ at_standing.shows (evidence_at kb self.now []) self.now.question (facts_of self.now.assumed) core.now }
    {
        match self.question {
            Question::Brave => keeps_facts(core, self.assumed.as_slice()),
            Question::Iar => drops_facts(core, self.assumed.as_slice()),
            Question::Ar => core.drops_of_each(self.asked.causes.as_slice()),
        }
    }

    /// Whether the core of the number shows what is asked.
    fn is_model(&self, number: u64) -> bool
        ensures exact { (kb : Knowledge) → result
            ≡ passes (at_standing.shows (evidence_at kb self.now []) self.now.question (facts_of self.now.assumed))
            (slice_get self.now.cores number) }
    {
        match core_at(&self.cores, number) {
            Some(core) => self.is_shown_by(core),
            None => false,
        }
    }

    /// Whether the live clauses don't refute the assumptions, the whole budget of the question was learned, and the try isn't easy.
    fn is_spent_try(
        &self,
        alloc: Global,
        conflicts: &Conflicts,
        better: &Better,
        clauses: &mut Clauses,
    ) -> Result<bool, NoMemory>
        requires over { IsOver better.now conflicts.now }
        requires assumed { AreBelow clauses.old.variables self.now.assumed }

        ensures exact { IfOk result (λ right. (kb : Knowledge) (live : List (List ℕ)) → HasLive clauses.old live
            → AreConflictsOf kb conflicts.now → IsPriorityOf kb self.now.repairs better.now
            → (IsTrue right ↔ SpentAt kb live self.now)) }
        ensures unchanged { clauses.new ≡ clauses.old }
    {
        if self.learned_in(self.question) != self.budget
            || clauses.refutes(self.assumed.as_slice())
        {
            return Ok(false);
        }
        Ok(!self.is_easy(alloc, conflicts, better)?)
    }

    /// Whether the try ends as the line says: the live clauses refute the assumptions, the question is spent, or the core of the number
    /// shows what was asked.
    pub fn is_right_done(
        &self,
        alloc: Global,
        conflicts: &Conflicts,
        better: &Better,
        clauses: &mut Clauses,
        how: How,
        core: Option<u64>,
    ) -> Result<bool, NoMemory>
        requires over { IsOver better.now conflicts.now }
        requires assumed { AreBelow clauses.old.variables self.now.assumed }

        ensures exact { IfOk result (λ right. (kb : Knowledge) (live : List (List ℕ)) → HasLive clauses.old live
            → AreConflictsOf kb conflicts.now → IsPriorityOf kb self.now.repairs better.now
            → (IsTrue right ↔ DoneAt kb live self.now how core)) }
        ensures unchanged { clauses.new ≡ clauses.old }
    {
        match (how, core) {
            (How::Refuted, None) => Ok(clauses.refutes(self.assumed.as_slice())),
            (How::Spent, None) => self.is_spent_try(alloc, conflicts, better, clauses),
            (How::Model, Some(number)) => Ok(self.is_model(number)),
            _ => Ok(false),
        }
    }
}
