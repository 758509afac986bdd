//! What a reader finds out itself, when a line asks for it.

ghost use Rattle.std.specs.Prelude.{◌≡◌, ◌↔◌, ℕ, List, IsTrue, IsSome, IfSome, OnOk, ◌+◌, ◌^◌, ◌≤◌};
ghost use Rattle.cq_terms.specs.Knowledge.{Knowledge};
ghost use Rattle.cq_terms.specs.Query.{Query};
ghost use Rattle.report_rules.specs.Inputs.{report_on};
ghost use Rattle.report_rules.specs.Rules.{LeavesNoneOut};
ghost use Rattle.report_laws.specs.AtStanding.{LeavesClosedAt};
ghost use Rattle.refutation_confirmer.specs.Kinds.{IsBehindBlocks, IsBehindConflicts};
ghost use Rattle.refutation_confirmer.specs.State.{AreKnown, Fits};
ghost use Rattle.refutation_confirmer.specs.Steps.{Comes, HasBlocks, HasConflicts, IsReadyFor, StillFits};

use crate::none_left_out::{has_told_all, is_behind_conflicts};
use crate::reader::Reader;
use cq_terms::{Cq, Kb, NoMemory};
use plain_finding::{base_clauses, find_candidates, find_conflicts, find_priority};
use report_standing::Standing;
use report_text::{Line, Origin};
use std::alloc::Global;

/// Whether a line of the kind stands behind all blocks, and isn't of a try.
fn is_behind_blocks(line: &Line) -> bool
    ensures exact { IsTrue result ↔ IsBehindBlocks line.now }
{
    matches!(
        line,
        Line::Conflict { .. } | Line::Forget { .. } | Line::Ask { .. } | Line::End { .. }
    )
}

impl Reader {
    /// Finds all conflicts, where a line of the kind asks for them.
    pub(crate) fn find_for(&mut self, alloc: Global, kb: &Kb, line: &Line) -> Result<(), NoMemory>
        requires comes { Comes kb.now self.old line.now }
        requires closed { (names : List (List ℕ)) (q : Query) → LeavesClosedAt (report_on kb.now names q) self.old.standing line.now }

        ensures known { OnOk result (IsBehindBlocks line.now → IsSome self.new.conflicts) }
        ensures same { OnOk result (self.new.standing ≡ self.old.standing) }
        ensures fits { OnOk result (StillFits kb.now self.old self.new) }
    {
        if !is_behind_blocks(line) {
            return Ok(());
        }
        self.find_conflicts(alloc, kb)
    }

    /// Finds all conflicts, unless they are known.
    fn find_conflicts(&mut self, alloc: Global, kb: &Kb) -> Result<(), NoMemory>
        requires blocks { HasBlocks kb.now self.old }

        ensures known { OnOk result (IsSome self.new.conflicts) }
        ensures same { OnOk result (self.new.standing ≡ self.old.standing) }
        ensures fits { OnOk result (StillFits kb.now self.old self.new) }
    {
        if self.conflicts.is_some() {
            return Ok(());
        }
        let queries = self.standing.negative_queries(alloc)?;
        let conflicts = find_conflicts(alloc, kb, &self.plain, &queries)?;
        let _facts = conflicts.facts();
        self.conflicts = Some(conflicts);
        Ok(())
    }

    /// Whether all conflicts are told, where a line of the kind stands behind them.
    pub(crate) fn leaves_none_out(&self, line: &Line) -> bool
        requires known { IsBehindConflicts line.now → IsSome self.now.conflicts }

        ensures exact { (kb : Knowledge) (names : List (List ℕ)) (q : Query) (before : List Line) → Fits (report_on kb names q) before self.now
            → IsTrue result ↔ LeavesNoneOut (report_on kb names q) before line.now }
    {
        if !is_behind_conflicts(line) {
            return true;
        }
        let Some(conflicts) = &self.conflicts else {
            unreachable!()
        };
        has_told_all(&self.standing, conflicts.clashes().len())
    }

    /// Finds what else the rule of a line of the kind asks for.
    pub(crate) fn find_rest_for(
        &mut self,
        alloc: Global,
        kb: &Kb,
        line: &Line,
    ) -> Result<(), NoMemory>
        requires comes { Comes kb.now self.old line.now }
        requires known { IsBehindBlocks line.now → IsSome self.old.conflicts }
        requires told { IsBehindConflicts line.now → HasConflicts kb.now self.old }

        ensures ready { OnOk result (IsReadyFor self.new line.now) }
        ensures same { OnOk result (self.new.standing ≡ self.old.standing) }
        ensures fits { OnOk result (StillFits kb.now self.old self.new) }
    {
        if !is_behind_conflicts(line) {
            return Ok(());
        }
        self.find_rest(alloc, kb)
    }

    /// Finds the priority, the candidates and the base clauses, unless they are known.
    fn find_rest(&mut self, alloc: Global, kb: &Kb) -> Result<(), NoMemory>
        requires told { HasConflicts kb.now self.old }

        ensures known { OnOk result (AreKnown self.new) }
        ensures same { OnOk result (self.new.standing ≡ self.old.standing) }
        ensures fits { OnOk result (StillFits kb.now self.old self.new) }
    {
        self.find_priority(alloc, kb)?;
        self.find_candidates(alloc, kb)?;
        self.find_clauses(alloc)
    }

    /// Finds the priority, unless it is known.
    fn find_priority(&mut self, alloc: Global, kb: &Kb) -> Result<(), NoMemory>
        requires told { HasConflicts kb.now self.old }

        ensures known { OnOk result (IsSome self.new.priority) }
        ensures same { OnOk result (self.new ≡ record self.old { priority = self.new.priority }) }
        ensures fits { OnOk result (StillFits kb.now self.old self.new) }
    {
        if self.better.is_some() {
            return Ok(());
        }
        let Some(conflicts) = &self.conflicts else {
            unreachable!()
        };
        let better = find_priority(alloc, kb, conflicts, self.standing.repairs())?;
        self.better = Some(better);
        Ok(())
    }

    /// Finds the candidates, unless they are known.
    fn find_candidates(&mut self, alloc: Global, kb: &Kb) -> Result<(), NoMemory>
        requires told { HasConflicts kb.now self.old }

        ensures known { OnOk result (IsSome self.new.candidates) }
        ensures same { OnOk result (self.new ≡ record self.old { candidates = self.new.candidates }) }
        ensures fits { OnOk result (StillFits kb.now self.old self.new) }
    {
        if self.candidates.is_some() {
            return Ok(());
        }
        let Some(conflicts) = &self.conflicts else {
            unreachable!()
        };
        let _facts = kb.facts();
        let members = self.standing.query_members();
        let candidates = find_candidates(alloc, &self.plain, conflicts, members)?;
        self.candidates = Some(candidates);
        Ok(())
    }

    /// Finds the base clauses, unless they are known. Memory is said to have run out where the facts and the candidates are more than 2^31.
    fn find_clauses(&mut self, alloc: Global) -> Result<(), NoMemory>
        requires told { (kb : Knowledge) × HasConflicts kb self.old }
        requires priority { IsSome self.old.priority }
        requires candidates { IsSome self.old.candidates }

        ensures known { OnOk result (IsSome self.new.clauses) }
        ensures same { OnOk result (self.new ≡ record self.old { clauses = self.new.clauses }) }
        ensures fits { OnOk result ((kb : Knowledge) → HasConflicts kb self.old → StillFits kb self.old self.new) }
    {
        if self.clauses.is_some() {
            return Ok(());
        }
        let Some(conflicts) = &self.conflicts else {
            unreachable!()
        };
        let Some(better) = &self.better else {
            unreachable!()
        };
        let Some(candidates) = &self.candidates else {
            unreachable!()
        };
        let Some(variables) = variables(conflicts.facts(), candidates.as_slice().len()) else {
            return Err(NoMemory);
        };
        let clauses = base_clauses(alloc, conflicts, better, variables)?;
        self.clauses = Some(clauses);
        Ok(())
    }
}

/// How many variables so many facts and candidates take, where they are few.
fn variables(facts: u32, candidates: usize) -> Option<u32>
    ensures exact { IfSome result (λ n. (n ≡ facts + candidates) × (n ≤ 2 ^ 31)) }
{
    let count = candidates.checked_add(facts as usize)?;
    if count > 2_147_483_648 {
        return None;
    }
    Some(count as u32)
}
