//! What a right line makes of a reader.

ghost use Rattle.std.specs.Prelude.{◌≡◌, ◌↔◌, ℕ, List, Option, IsSome, IfSome, IsTrue, OnOk, IsErrOf, length};
ghost use Rattle.std.specs.Option.{IsSomeAnd};
ghost use Rattle.cq_terms.specs.Knowledge.{Knowledge};
ghost use Rattle.cq_terms.specs.Query.{Query};
ghost use Rattle.cq_steps.specs.declared.moves.Move.{Move};
ghost use Rattle.cq_terms.specs.declared.facts.Repairs.TheVariants as mode;
ghost use Rattle.cq_meaning.specs.ConflictGraphs.{AreConflictsOf};
ghost use Rattle.cq_meaning.specs.Repairs.{IsAcyclic, IsBetter};
ghost use Rattle.priority_graph.specs.Inputs.{IsPriorityOf};
ghost use Rattle.priority_graph.specs.Priority.{IsOver};
ghost use Rattle.priority_graph.specs.Relations.{IsCycle};
ghost use Rattle.report_text.specs.declared.line.Line.{Line};
ghost use Rattle.report_rules.specs.Inputs.{report_on};
ghost use Rattle.report_rules.specs.Accepted.{Right};
ghost use Rattle.report_laws.specs.CycleLaws.{IsConflictLine};
ghost use Rattle.refutation_confirmer.specs.Room.{HasRoom};
ghost use Rattle.refutation_confirmer.specs.State.{AreKnown, Fits, TellsNow};
ghost use Rattle.refutation_confirmer.specs.Steps.{FitsBefore, IsReadyFor, Takes};
ghost use Rattle.refutation_confirmer.specs.declared.confirmed.ConfirmFault.TheVariants as fault;

use crate::ConfirmFault;
use crate::none_left_out::has_told_all;
use crate::reader::Reader;
use cq_terms::{Cq, IdLists, Ids, Kb, NoMemory, Repairs};
use plain_finding::{learnable_facts, ranked};
use priority_graph::PriorityRefusal;
use report_text::{How, Line, Origin, Question, Verdict};
use std::alloc::Global;

/// Whether the line tells a conflict.
pub(crate) fn is_conflict(line: &Line) -> bool
    ensures exact { IsTrue result ↔ IsConflictLine line.now }
{
    matches!(line, Line::Conflict { .. })
}

impl Reader {
    /// Takes a head.
    fn take_head(&mut self, budget: u64, keep: u64, repairs: Repairs)
        ensures taken { (kb : Knowledge) (axioms facts version : ℕ)
            → Takes kb self.old (Line.Head axioms budget facts keep repairs version) self.new }
    {
        self.standing.take_head(budget, keep, repairs);
    }

    /// Takes a query of a block.
    fn take_cq(&mut self, alloc: Global, origin: Origin, query: Cq) -> Result<(), NoMemory>
        ensures taken { OnOk result ((kb : Knowledge) (step : Option (ℕ × Move)) → Takes kb self.old (Line.Cq origin query step) self.new) }
    {
        self.standing.take_cq(alloc, origin, query)
    }

    /// Takes a `conflict` line. `Cycle` comes exactly at the last of all conflicts, where the head asks for the priority and it has one.
    pub(crate) fn take_conflict(&mut self, alloc: Global, kb: &Kb) -> Result<(), ConfirmFault>
        requires room { HasRoom self.old.standing }
        requires known { IsSome self.old.conflicts }
        requires right { (l : Line) × IsConflictLine l × FitsBefore kb.now self.old l }

        ensures taken { OnOk result ((l : Line) → IsConflictLine l → Takes kb.now self.old l self.new) }
        ensures cycle { (facts : List ℕ) → IsErrOf result (fault.Cycle facts)
            → (names : List (List ℕ)) (q : Query) (before : List Line) (l : Line) → IsConflictLine l
            → Fits (report_on kb.now names q) before self.old → Right (report_on kb.now names q) before l
            → TellsNow (report_on kb.now names q) before l facts }
    {
        self.standing.take_conflict();
        if !self.ends_conflicts() {
            return Ok(());
        }
        self.rank(alloc, kb)
    }

    /// Whether all conflicts are told and the head asks for the priority.
    fn ends_conflicts(&self) -> bool
        requires known { IsSome self.now.conflicts }

        ensures exact { IsTrue result ↔ (IsSomeAnd self.now.conflicts (λ g. self.now.standing.told ≡ length g.clashes)
            × (self.now.standing.repairs ≡ mode.Pareto)) }
    {
        let Some(conflicts) = &self.conflicts else {
            unreachable!()
        };
        has_told_all(&self.standing, conflicts.clashes().len())
            && self.standing.repairs() == Repairs::Pareto
    }

    /// Finds the priority that the head asks for.
    fn rank(&mut self, alloc: Global, kb: &Kb) -> Result<(), ConfirmFault>
        requires known { IsSome self.old.conflicts }
        requires of { IfSome self.old.conflicts (AreConflictsOf kb.now) }

        ensures same { OnOk result (self.new ≡ record self.old { priority = self.new.priority }) }
        ensures over { OnOk result (IfSome self.old.conflicts (λ g. IfSome self.new.priority (λ p. IsOver p g))) }
        ensures exact { OnOk result (IfSome self.new.priority (IsPriorityOf kb.now mode.Pareto)) }
        ensures acyclic { OnOk result (IsAcyclic kb.now mode.Pareto) }
        ensures cycle { (facts : List ℕ) → IsErrOf result (fault.Cycle facts)
            → IsCycle (IsBetter kb.now mode.Pareto) facts × ¬ IsAcyclic kb.now mode.Pareto }
    {
        let Some(conflicts) = &self.conflicts else {
            unreachable!()
        };
        match ranked(alloc, kb, conflicts) {
            Ok(better) => {
                self.better = Some(better);
                Ok(())
            }
            Err(PriorityRefusal::Cycle { facts }) => Err(ConfirmFault::Cycle { facts }),
            Err(PriorityRefusal::NoMemory) => Err(ConfirmFault::NoMemory),
        }
    }

    /// Takes an `ask` line.
    fn take_ask(
        &mut self,
        alloc: Global,
        candidate: u32,
        tuple: Ids,
        causes: IdLists,
    ) -> Result<(), NoMemory>
        requires known { AreKnown self.old }
        requires right { (kb : Knowledge) × (members : List ℕ) × FitsBefore kb self.old (Line.Ask candidate tuple causes members) }

        ensures taken { OnOk result ((kb : Knowledge) (members : List ℕ) → Takes kb self.old (Line.Ask candidate tuple causes members) self.new) }
    {
        let Some(conflicts) = &self.conflicts else {
            unreachable!()
        };
        let Some(clauses) = &mut self.clauses else {
            unreachable!()
        };
        let learnable = learnable_facts(alloc, conflicts, causes.as_slice())?;
        clauses.open(alloc, conflicts.facts() + candidate, causes.as_slice())?;
        self.learnable = Some(learnable);
        self.standing.take_ask(candidate, tuple, causes);
        Ok(())
    }

    /// Takes a `try` line.
    fn take_try(&mut self, question: Question, assume: Ids)
        ensures taken { (kb : Knowledge) → Takes kb self.old (Line.Try question assume) self.new }
    {
        self.standing.take_try(question, assume);
    }

    /// Takes a `learn` line.
    fn take_learn(&mut self, number: u64, clause: Ids) -> Result<(), NoMemory>
        requires room { HasRoom self.old.standing }
        requires right { (kb : Knowledge) × FitsBefore kb self.old (Line.Learn number clause) }

        ensures taken { OnOk result ((kb : Knowledge) → Takes kb self.old (Line.Learn number clause) self.new) }
    {
        let Some(clauses) = &mut self.clauses else {
            unreachable!()
        };
        clauses.learn(clause.as_slice())?;
        self.standing.take_learn(number, clause)
    }

    /// Takes a `core` line.
    fn take_core(&mut self, kept: Ids, dropped: Ids) -> Result<(), NoMemory>
        ensures taken { OnOk result ((kb : Knowledge) (number : ℕ) → Takes kb self.old (Line.Core number kept dropped) self.new) }
    {
        self.standing.take_core(kept, dropped)
    }

    /// Takes a `done` line.
    fn take_done(&mut self, alloc: Global, how: How, core: Option<u64>) -> Result<(), NoMemory>
        ensures taken { OnOk result ((kb : Knowledge) → Takes kb self.old (Line.Done how core) self.new) }
    {
        self.standing.take_done(alloc, how, core)
    }

    /// Takes a `forget` line.
    fn take_forget(&mut self, alloc: Global, numbers: &[u64]) -> Result<(), NoMemory>
        requires known { AreKnown self.old }

        ensures taken { OnOk result ((kb : Knowledge) → Takes kb self.old (Line.Forget numbers.now) self.new) }
    {
        let Some(clauses) = &mut self.clauses else {
            unreachable!()
        };
        let marks = self.standing.stay_behind_forget(alloc, numbers)?;
        clauses.keep(alloc, marks.as_slice())?;
        self.standing.take_forget(numbers);
        Ok(())
    }

    /// Takes an `answer` line.
    fn take_answer(
        &mut self,
        alloc: Global,
        kb: &Kb,
        brave: Verdict,
        ar: Verdict,
        iar: Verdict,
    ) -> Result<(), NoMemory>
        requires room { HasRoom self.old.standing }
        requires known { AreKnown self.old }

        ensures taken { OnOk result ((cores : List ℕ) (names : List (List ℕ)) (tuple : List ℕ)
            → Takes kb.now self.old (Line.Answer brave ar iar cores names tuple) self.new) }
    {
        let Some(clauses) = &mut self.clauses else {
            unreachable!()
        };
        let marks = self.standing.stay_behind_answer(alloc, kb)?;
        clauses.close();
        clauses.keep(alloc, marks.as_slice())?;
        self.standing.take_answer(kb, brave, ar, iar);
        Ok(())
    }

    /// Takes an `end` line.
    fn take_end(&mut self)
        requires room { HasRoom self.old.standing }

        ensures taken { (kb : Knowledge) (answers brave ar iar undecided : ℕ)
            → Takes kb self.old (Line.End answers brave ar iar undecided) self.new }
    {
        self.standing.take_end();
        self.candidates = None;
        self.clauses = None;
    }

    /// Takes a right line that tells no conflict.
    pub(crate) fn take_other(&mut self, alloc: Global, kb: &Kb, line: Line) -> Result<(), NoMemory>
        requires room { HasRoom self.old.standing }
        requires ready { IsReadyFor self.old line }
        requires right { FitsBefore kb.now self.old line }
        requires other { ¬ IsConflictLine line }

        ensures taken { OnOk result (Takes kb.now self.old line self.new) }
    {
        match line {
            Line::Head {
                budget,
                keep,
                repairs,
                ..
            } => {
                self.take_head(budget, keep, repairs);
                Ok(())
            }
            Line::Cq { origin, query, .. } => self.take_cq(alloc, origin, query),
            Line::Conflict { .. } => unreachable!(),
            Line::Ask {
                candidate,
                tuple,
                causes,
                ..
            } => self.take_ask(alloc, candidate, tuple, causes),
            Line::Try { question, assume } => {
                self.take_try(question, assume);
                Ok(())
            }
            Line::Learn { number, clause } => self.take_learn(number, clause),
            Line::Core { kept, dropped, .. } => self.take_core(kept, dropped),
            Line::Done { how, core } => self.take_done(alloc, how, core),
            Line::Forget { clauses } => self.take_forget(alloc, clauses.as_slice()),
            Line::Answer { brave, ar, iar, .. } => self.take_answer(alloc, kb, brave, ar, iar),
            Line::End { .. } => {
                self.take_end();
                Ok(())
            }
        }
    }
}
