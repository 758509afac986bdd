//! Whether a line obeys the rule of its own kind.

ghost use Rattle.std.specs.Prelude.{◌≡◌, ◌↔◌, ℕ, List, Option, IsTrue, IsSome, OnOk, IfOk};
ghost use Rattle.cq_terms.specs.Knowledge.{Knowledge};
ghost use Rattle.cq_terms.specs.Query.{Query};
ghost use Rattle.report_rules.specs.Inputs.{report_on};
ghost use Rattle.refutation_confirmer.specs.Kinds.{IsInside};
ghost use Rattle.refutation_confirmer.specs.Steps.{Comes, IsReadyFor, TellsRule};

use crate::reader::Reader;
use cq_terms::{Cq, IdLists, Ids, Kb, NoMemory, Vocab};
use report_standing::{is_right_ask, is_right_conflict, is_right_head, joins};
use report_text::{How, Line};
use std::alloc::Global;

impl Reader {
    /// Whether a `conflict` line obeys its rule.
    fn obeys_conflict(
        &self,
        alloc: Global,
        facts: &Ids,
        axiom: u32,
        member: u32,
    ) -> Result<bool, NoMemory>
        requires known { IsSome self.now.conflicts }

        ensures exact { (kb : Knowledge) (names : List (List ℕ)) (q : Query)
            → IfOk result (TellsRule (report_on kb names q) self.now (Line.Conflict facts.now «axiom» member)) }
    {
        let Some(conflicts) = &self.conflicts else {
            unreachable!()
        };
        is_right_conflict(
            alloc,
            &self.plain,
            conflicts,
            &self.standing,
            facts,
            axiom,
            member,
        )
    }

    /// Whether an `ask` line obeys its rule.
    fn obeys_ask(
        &self,
        alloc: Global,
        candidate: u32,
        tuple: &Ids,
        causes: &IdLists,
        members: &Ids,
    ) -> Result<bool, NoMemory>
        requires known { IsSome self.now.candidates }

        ensures exact { (kb : Knowledge) (names : List (List ℕ)) (q : Query)
            → IfOk result (TellsRule (report_on kb names q) self.now (Line.Ask candidate tuple.now causes.now members.now)) }
    {
        let Some(candidates) = &self.candidates else {
            unreachable!()
        };
        is_right_ask(
            alloc,
            &self.plain,
            candidates,
            &self.standing,
            candidate,
            tuple,
            causes,
            members,
        )
    }

    /// Whether a `learn` line obeys its rule.
    fn obeys_learn(
        &mut self,
        alloc: Global,
        kb: &Kb,
        number: u64,
        clause: &Ids,
    ) -> Result<bool, NoMemory>
        requires comes { Comes kb.now self.old (Line.Learn number clause.now) }

        ensures exact { (names : List (List ℕ)) (q : Query)
            → IfOk result (TellsRule (report_on kb.now names q) self.old (Line.Learn number clause.now)) }
        ensures unchanged { OnOk result (self.new ≡ self.old) }
    {
        let Some(clauses) = &mut self.clauses else {
            unreachable!()
        };
        let Some(learnable) = &self.learnable else {
            unreachable!()
        };
        self.standing
            .is_right_clause(alloc, kb, clauses, learnable, number, clause.as_slice())
    }

    /// Whether a `core` line obeys its rule.
    fn obeys_core(&self, number: u64, kept: &Ids, dropped: &Ids) -> bool
        requires comes { (kb : Knowledge) × Comes kb self.now (Line.Core number kept.now dropped.now) }

        ensures exact { (kb : Knowledge) (names : List (List ℕ)) (q : Query)
            → TellsRule (report_on kb names q) self.now (Line.Core number kept.now dropped.now) result }
    {
        let Some(conflicts) = &self.conflicts else {
            unreachable!()
        };
        let Some(better) = &self.better else {
            unreachable!()
        };
        self.standing.is_right_core(
            conflicts,
            better,
            number,
            kept.as_slice(),
            dropped.as_slice(),
        )
    }

    /// Whether a `done` line obeys its rule.
    fn obeys_done(&mut self, alloc: Global, how: How, core: Option<u64>) -> Result<bool, NoMemory>
        requires comes { (kb : Knowledge) × Comes kb self.old (Line.Done how core) }

        ensures exact { (kb : Knowledge) (names : List (List ℕ)) (q : Query)
            → IfOk result (TellsRule (report_on kb names q) self.old (Line.Done how core)) }
        ensures unchanged { OnOk result (self.new ≡ self.old) }
    {
        let Some(conflicts) = &self.conflicts else {
            unreachable!()
        };
        let Some(better) = &self.better else {
            unreachable!()
        };
        let Some(clauses) = &mut self.clauses else {
            unreachable!()
        };
        self.standing
            .is_right_done(alloc, conflicts, better, clauses, how, core)
    }

    /// Whether an `end` line obeys its rule.
    fn obeys_end(&self, answers: u64, brave: u64, ar: u64, iar: u64, undecided: u64) -> bool
        requires known { IsSome self.now.candidates }

        ensures exact { (kb : Knowledge) (names : List (List ℕ)) (q : Query)
            → TellsRule (report_on kb names q) self.now (Line.End answers brave ar iar undecided) result }
    {
        let Some(candidates) = &self.candidates else {
            unreachable!()
        };
        self.standing
            .is_right_end(candidates, answers, brave, ar, iar, undecided)
    }

    /// Whether a line of an open answer obeys the rule of its own kind.
    fn obeys_inside(
        &mut self,
        alloc: Global,
        kb: &Kb,
        vocab: &Vocab,
        line: &Line,
    ) -> Result<bool, NoMemory>
        requires comes { Comes kb.now self.old line.now }
        requires inside { IsInside line.now }

        ensures exact { (q : Query) → IfOk result (TellsRule (report_on kb.now vocab.now.inds q) self.old line.now) }
        ensures unchanged { OnOk result (self.new ≡ self.old) }
    {
        match line {
            Line::Try { question, assume } => Ok(
                self.standing.is_right_try(kb, *question, assume.as_slice()),
            ),
            Line::Learn { number, clause } => self.obeys_learn(alloc, kb, *number, clause),
            Line::Core {
                number,
                kept,
                dropped,
            } => Ok(self.obeys_core(*number, kept, dropped)),
            Line::Done { how, core } => self.obeys_done(alloc, *how, *core),
            Line::Answer {
                brave,
                ar,
                iar,
                cores,
                names,
                tuple,
            } => Ok(
                self.standing.is_right_answer(
                    kb,
                    &vocab.inds,
                    *brave,
                    *ar,
                    *iar,
                    cores.as_slice(),
                    names.as_slice(),
                    tuple.as_slice(),
                ),
            ),
            Line::Head { .. }
            | Line::Cq { .. }
            | Line::Conflict { .. }
            | Line::Ask { .. }
            | Line::Forget { .. }
            | Line::End { .. } => unreachable!(),
        }
    }

    /// Whether a line that may come obeys the rule of its own kind.
    pub(crate) fn obeys(
        &mut self,
        alloc: Global,
        kb: &Kb,
        vocab: &Vocab,
        query: &Cq,
        line: &Line,
    ) -> Result<bool, NoMemory>
        requires comes { Comes kb.now self.old line.now }
        requires ready { IsReadyFor self.old line.now }

        ensures exact { IfOk result (TellsRule (report_on kb.now vocab.now.inds query.now) self.old line.now) }
        ensures unchanged { OnOk result (self.new ≡ self.old) }
    {
        match line {
            Line::Head {
                axioms,
                facts,
                version,
                ..
            } => Ok(is_right_head(kb, *axioms, *facts, *version)),
            Line::Cq {
                origin,
                query: member,
                step,
            } => joins(alloc, kb, query, &self.standing, *origin, member, *step),
            Line::Conflict {
                facts,
                axiom,
                member,
            } => self.obeys_conflict(alloc, facts, *axiom, *member),
            Line::Ask {
                candidate,
                tuple,
                causes,
                members,
            } => self.obeys_ask(alloc, *candidate, tuple, causes, members),
            Line::Forget { clauses } => self.standing.is_right_forget(alloc, clauses.as_slice()),
            Line::End {
                answers,
                brave,
                ar,
                iar,
                undecided,
            } => Ok(self.obeys_end(*answers, *brave, *ar, *iar, *undecided)),
            Line::Try { .. }
            | Line::Learn { .. }
            | Line::Core { .. }
            | Line::Done { .. }
            | Line::Answer { .. } => self.obeys_inside(alloc, kb, vocab, line),
        }
    }
}
