//! What a desk works with, and one answer from its `ask` line to its `answer` line.

ghost use Rattle.std.specs.Prelude.{◌≡◌, ◌<◌, ◌≤◌, ◌+◌, ◌^◌, ◌↔◌, ◌⊎◌, [], List, ℕ, None, Some, map, All, Contains, IfOk, OnOk, OnErr};
ghost use Rattle.cq_io.specs.Faults.{TellsFault};
ghost use Rattle.priority_graph.specs.Priority.{IsOver};
ghost use Rattle.repair_clauses.specs.BaseClauses.{AllFacts, IsBaseClause};
ghost use Rattle.repair_clauses.specs.CauseClauses as clauses;
ghost use Rattle.report_text.specs.declared.line.Line.TheVariants as line;
ghost use Rattle.report_text.specs.Reports.{AddsLine, StayTold};
ghost use Rattle.cdcl_core.specs.State.{without_variable};
ghost use Rattle.answer_desk.specs.Answering.{AnswersRight, DecideByBudget, DecideOverAll, TellTruth, is_report_fault, SaysVerdicts};
ghost use Rattle.answer_desk.specs.Desks.{IsReady, MayAnswer, given_in};
ghost use Rattle.answer_evidence.specs.FreeCauses.{IsFreeCause};
ghost use Rattle.answer_desk.specs.Loading.{AreAddable, AreLoadable, FitIn, Loads};
ghost use Rattle.answer_evidence.specs.Ranges.{IsRange};
ghost use Rattle.answer_desk.specs.Openings.{IsOpen, IsTornAs, KeepsApart};
ghost use Rattle.answer_evidence.specs.Shown.{ShowsNothing, answer_line, verdict_in};
ghost use Rattle.answer_desk.specs.Works.{desk_of};

use crate::{ClassifyFault, Plan, Verdicts};
use answer_evidence::{
    Evidence, Opening, are_utf8, copied_lists, copied_texts, fit, fit_long, numbers_from, scope_of,
};
use cause_finder::Candidate;
use cdcl_core::Solver;
use cq_terms::{Conflicts, Ids, Longs, NoMemory, Texts};
use priority_graph::Better;
use repair_encoder::cause_clause;
use report_text::{Line, Question, Report};
use std::alloc::Global;

mod cores;
mod questions;
mod tries;

/// The conflicts, the priority and the plan of a desk, its solver, and how many answers and cores there were.
#[derive(Drop)]
pub(crate) struct Work<'a> {
    pub(crate) alloc: Global,
    pub(crate) conflicts: &'a Conflicts,
    pub(crate) better: &'a Better,
    pub(crate) plan: Plan,
    pub(crate) solver: Solver,
    pub(crate) answers: u64,
    pub(crate) cores: u64,
}

impl Work<'_> {
    /// Answers the three questions of a candidate.
    pub(crate) fn answer<L: Report>(
        &mut self,
        number: u32,
        candidate: &Candidate,
        names: &Texts,
        report: &mut L,
    ) -> Result<Verdicts, ClassifyFault>
        requires ready { IsReady (desk_of self.old) self.old.solver }
        requires may_answer { MayAnswer (desk_of self.old) number candidate.now.causes }
        requires none_torn { L.torn report.old ≡ None }

        ensures truth { IfOk result (TellTruth (desk_of self.old) candidate.now.tuple candidate.now.causes) }
        ensures over_all { IfOk result (DecideOverAll (desk_of self.old) candidate.now.causes) }
        ensures by_budget { IfOk result (DecideByBudget (desk_of self.old) candidate.now.causes) }

        ensures right { AnswersRight (desk_of self.old) (desk_of self.new) number candidate.now.tuple candidate.now.causes candidate.now.members
            names.now (L.lines report.old) (L.lines report.new) (L.torn report.new) result }
        ensures again { OnOk result (IsReady (desk_of self.new) self.new.solver) }

        ensures only { self.new ≡ record self.old { solver = self.new.solver; answers = self.new.answers; cores = self.new.cores } }
        ensures variables { OnOk result (self.new.solver.variables ≡ self.old.solver.variables) }
        ensures counted { OnOk result (self.new.answers ≡ self.old.answers + 1) }
        ensures fault { TellsFault (L.faults report.old) (L.faults report.new) (is_report_fault result) }
        ensures none_torn { OnOk result (L.torn report.new ≡ None) }
        ensures same_target { L.target report.new ≡ L.target report.old }
    {
        let _order = self.better.linear();
        let mut opening = self.open(number, candidate, report)?;
        self.ask(&mut opening, &candidate.causes, report)?;
        self.close(&opening, candidate, names, report)
    }

    /// Writes the `ask` line, and loads the clauses of the causes.
    fn open<L: Report>(
        &mut self,
        number: u32,
        candidate: &Candidate,
        report: &mut L,
    ) -> Result<Opening, ClassifyFault>
        requires over { IsOver self.old.better.now self.old.conflicts.now }
        requires few { self.old.conflicts.now.facts + number < 2 ^ 31 }
        requires variables { self.old.conflicts.now.facts + number < self.old.solver.variables }
        requires causes { All (IsFreeCause self.old.better.now) candidate.now.causes }
        requires base { (clause : List ℕ) → Contains (given_in self.old.solver.live) clause
            ↔ IsBaseClause self.old.better.now (AllFacts self.old.better.now) clause }
        requires apart { KeepsApart self.old.better.now self.old.solver }
        requires none_torn { L.torn report.old ≡ None }

        ensures open { IfOk result (λ opening.
            IsOpen self.new.conflicts.now self.new.better.now self.new.solver opening candidate.now.causes) }
        ensures selector { IfOk result (λ opening. opening.selector ≡ self.old.conflicts.now.facts + number) }
        ensures first_core { IfOk result (λ opening. opening.first_core ≡ self.old.cores) }
        ensures nothing { IfOk result (λ opening. ShowsNothing candidate.now.causes opening.evidence) }
        ensures loaded { OnOk result (Loads (map (clauses.cause_clause (self.old.conflicts.now.facts + number)) candidate.now.causes)
            self.old.solver self.new.solver) }
        ensures only { self.new ≡ record self.old { solver = self.new.solver } }

        ensures told { OnOk result (AddsLine (L.lines report.old) (L.lines report.new)
            (line.Ask number candidate.now.tuple candidate.now.causes candidate.now.members)) }
        ensures broken { OnErr result (StayTold (L.lines report.old) (L.lines report.new)
            ⊎ (AddsLine (L.lines report.old) (L.lines report.new)
            (line.Ask number candidate.now.tuple candidate.now.causes candidate.now.members) × (L.torn report.new ≡ None))) }
        ensures torn { IsTornAs result (L.torn report.new) (line.Ask number candidate.now.tuple candidate.now.causes candidate.now.members) }
        ensures fault { TellsFault (L.faults report.old) (L.faults report.new) (is_report_fault result) }
        ensures same_target { L.target report.new ≡ L.target report.old }
    {
        let _order = self.better.linear();
        let causes = candidate.causes.as_slice();
        let selector = self.conflicts.facts() + number;
        let scope = scope_of(self.alloc, self.conflicts, causes, selector)?;
        let evidence = Evidence::new(self.alloc, causes)?;
        tell_ask(self.alloc, number, candidate, report)?;
        self.load_causes(selector, causes)?;
        Ok(Opening {
            selector,
            scope,
            first_core: self.cores,
            evidence,
        })
    }

    /// Adds the clause of each cause.
    fn load_causes(&mut self, selector: u32, causes: &[Ids]) -> Result<(), NoMemory>
        requires few { selector < 2 ^ 31 }
        requires variables { selector < self.old.solver.variables }
        requires causes { AreLoadable selector causes.now }

        ensures exact { OnOk result (Loads (map (clauses.cause_clause selector) causes.now) self.old.solver self.new.solver) }
        ensures only { self.new ≡ record self.old { solver = self.new.solver } }
    {
        for cause in causes {
            let clause = cause_clause(self.alloc, selector, cause.as_slice())?;
            self.solver.add_clause(clause.as_slice())?;
        }
        Ok(())
    }

    /// Writes the `answer` line, and drops the clauses of the candidate.
    fn close<L: Report>(
        &mut self,
        opening: &Opening,
        candidate: &Candidate,
        names: &Texts,
        report: &mut L,
    ) -> Result<Verdicts, ClassifyFault>
        requires counted { opening.now.first_core ≤ self.old.cores }
        requires few { self.old.answers < 2 ^ 31 }
        requires none_torn { L.torn report.old ≡ None }

        ensures verdicts { IfOk result (SaysVerdicts opening.now.evidence) }
        ensures added { OnOk result ((cores : List ℕ) × IsRange opening.now.first_core self.old.cores cores
            × AddsLine (L.lines report.old) (L.lines report.new) (answer_line opening.now.evidence cores names.now candidate.now.tuple)) }
        ensures unchanged { OnErr result (StayTold (L.lines report.old) (L.lines report.new)) }
        ensures torn { OnErr result ((L.torn report.new ≡ None) ⊎ ((cores : List ℕ) × IsRange opening.now.first_core self.old.cores cores
            × (L.torn report.new ≡ Some (answer_line opening.now.evidence cores names.now candidate.now.tuple)))) }
        ensures closed { OnOk result (self.new.solver ≡
            record self.old.solver { live = without_variable self.old.solver.live opening.now.selector; values = None }) }
        ensures counted { OnOk result (self.new.answers ≡ self.old.answers + 1) }
        ensures only { self.new ≡ record self.old { solver = self.new.solver; answers = self.new.answers } }
        ensures fault { TellsFault (L.faults report.old) (L.faults report.new) (is_report_fault result) }
        ensures none_torn { OnOk result (L.torn report.new ≡ None) }
        ensures same_target { L.target report.new ≡ L.target report.old }
    {
        let verdicts = verdicts_of(&opening.evidence);
        let cores = numbers_from(self.alloc, opening.first_core, self.cores)?;
        tell_answer(self.alloc, &verdicts, cores, candidate, names, report)?;
        self.solver.close(opening.selector);
        self.answers += 1;
        Ok(verdicts)
    }
}

/// What the evidence says of the three questions.
fn verdicts_of(evidence: &Evidence) -> Verdicts
    ensures brave { result.brave ≡ verdict_in evidence.now Question.Brave }
    ensures ar { result.ar ≡ verdict_in evidence.now Question.Ar }
    ensures iar { result.iar ≡ verdict_in evidence.now Question.Iar }
{
    Verdicts {
        brave: evidence.verdict(Question::Brave),
        ar: evidence.verdict(Question::Ar),
        iar: evidence.verdict(Question::Iar),
    }
}

/// Writes the `ask` line.
fn tell_ask<L: Report>(
    alloc: Global,
    number: u32,
    candidate: &Candidate,
    report: &mut L,
) -> Result<(), ClassifyFault>
    requires fit { FitIn (2 ^ 32) candidate.now.causes }
    requires none_torn { L.torn report.old ≡ None }

    ensures added { OnOk result (AddsLine (L.lines report.old) (L.lines report.new)
        (line.Ask number candidate.now.tuple candidate.now.causes candidate.now.members)) }
    ensures unchanged { OnErr result (StayTold (L.lines report.old) (L.lines report.new)) }
    ensures torn { IsTornAs result (L.torn report.new) (line.Ask number candidate.now.tuple candidate.now.causes candidate.now.members) }
    ensures fault { TellsFault (L.faults report.old) (L.faults report.new) (is_report_fault result) }
    ensures same_target { L.target report.new ≡ L.target report.old }
{
    let tuple = candidate.tuple.as_slice();
    let members = candidate.members.as_slice();
    fit(tuple);
    fit(members);
    let line = Line::Ask {
        candidate: number,
        tuple: Ids::from_slice(alloc, tuple)?,
        causes: copied_lists(alloc, candidate.causes.as_slice())?,
        members: Ids::from_slice(alloc, members)?,
    };
    report.line(&line)?;
    Ok(())
}

/// Writes the `answer` line.
fn tell_answer<L: Report>(
    alloc: Global,
    verdicts: &Verdicts,
    cores: Longs,
    candidate: &Candidate,
    names: &Texts,
    report: &mut L,
) -> Result<(), ClassifyFault>
    requires none_torn { L.torn report.old ≡ None }

    ensures added { OnOk result (AddsLine (L.lines report.old) (L.lines report.new)
        (line.Answer verdicts.now.brave verdicts.now.ar verdicts.now.iar cores names.now candidate.now.tuple)) }
    ensures unchanged { OnErr result (StayTold (L.lines report.old) (L.lines report.new)) }
    ensures torn { IsTornAs result (L.torn report.new)
        (line.Answer verdicts.now.brave verdicts.now.ar verdicts.now.iar cores names.now candidate.now.tuple) }
    ensures fault { TellsFault (L.faults report.old) (L.faults report.new) (is_report_fault result) }
    ensures same_target { L.target report.new ≡ L.target report.old }
{
    let tuple = candidate.tuple.as_slice();
    fit(tuple);
    fit_long(cores.as_slice());
    are_utf8(names);
    let line = Line::Answer {
        brave: verdicts.brave,
        ar: verdicts.ar,
        iar: verdicts.iar,
        cores,
        names: copied_texts(alloc, names)?,
        tuple: Ids::from_slice(alloc, tuple)?,
    };
    report.line(&line)?;
    Ok(())
}

/// Adds each of the clauses.
pub(crate) fn add_each(solver: &mut Solver, clauses: &[Ids]) -> Result<(), NoMemory>
    requires addable { AreAddable solver.old.variables clauses.now }

    ensures exact { OnOk result (Loads clauses.now solver.old solver.new) }
{
    for clause in clauses {
        solver.add_clause(clause.as_slice())?;
    }
    Ok(())
}
