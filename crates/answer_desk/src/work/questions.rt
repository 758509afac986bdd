//! The questions of an answer: brave by cause, IAR by fact, AR by the candidate's variable, each only while it isn't settled.

ghost use Rattle.std.specs.Prelude.{◌≡◌, ◌<◌, ◌≤◌, ◌+◌, ◌-◌, ◌*◌, ◌^◌, [], List, ℕ, None, length, Contains, IfOk, OnOk, OnErr};
ghost use Rattle.cq_io.specs.Faults.{TellsFault};
ghost use Rattle.answer_desk.specs.Answering.{is_report_fault};
ghost use Rattle.answer_desk.specs.Asking.{IsCauseAt, PlaceGoesOn, IarGoesOn};
ghost use Rattle.answer_desk.specs.Following.{AtBrave, AtIar, AtEnd, FollowsOpen, GoesOn, CauseGoesOn, StopsAfter, IarIsOver};
ghost use Rattle.answer_desk.specs.Frames.{ForEachFrame};
ghost use Rattle.answer_desk.specs.PlacesOver.{IsAskedAt, PlacesStayOver, FactIsSeen};
ghost use Rattle.answer_desk.specs.Openings.{IsOpen, HasRoom, Spends, IsSameOpening};
ghost use Rattle.answer_desk.specs.Trying.{cores_after};

use crate::ClassifyFault;
use crate::work::Work;
use answer_evidence::{Aim, Opening, is_among};
use cdcl_core::Budget;
use cq_terms::{IdLists, Ids};
use report_text::{How, Question, Report};

impl Work<'_> {
    /// Asks the three questions one after the other.
    pub(super) fn ask<L: Report>(
        &mut self,
        opening: &mut Opening,
        causes: &IdLists,
        report: &mut L,
    ) -> Result<(), ClassifyFault>
        requires open { IsOpen self.old.conflicts.now self.old.better.now self.old.solver opening.old causes.now }
        requires room { self.old.solver.next + 3 * self.old.plan.budget < 2 ^ 64 }
        requires few { self.old.cores + length causes.now + 2 < 2 ^ 64 }
        requires none_torn { L.torn report.old ≡ None }

        ensures follows { OnOk result (ForEachFrame self.old.conflicts.now self.old.better.now causes.now opening.old self.old.plan.budget
            (λ w more. FollowsOpen w more self.old.solver self.old.cores (AtBrave [] 0) opening.old.evidence
            → GoesOn w more self.new.solver self.new.cores AtEnd opening.new.evidence (L.lines report.old) (L.lines report.new))) }
        ensures stops { OnErr result (ForEachFrame self.old.conflicts.now self.old.better.now causes.now opening.old self.old.plan.budget
            (λ w more. FollowsOpen w more self.old.solver self.old.cores (AtBrave [] 0) opening.old.evidence
            → StopsAfter w more (L.lines report.old) (L.lines report.new) (L.torn report.new))) }

        ensures same { IsSameOpening opening.old opening.new }
        ensures variables { OnOk result (self.new.solver.variables ≡ self.old.solver.variables) }
        ensures counted { OnOk result (self.new.cores ≤ self.old.cores + length causes.now + 2) }
        ensures only { self.new ≡ record self.old { solver = self.new.solver; cores = self.new.cores } }
        ensures fault { TellsFault (L.faults report.old) (L.faults report.new) (is_report_fault result) }
        ensures none_torn { OnOk result (L.torn report.new ≡ None) }
        ensures same_target { L.target report.new ≡ L.target report.old }
    {
        let lists = causes.as_slice();
        self.ask_brave(opening, lists, report)?;
        self.ask_iar(opening, lists, report)?;
        self.ask_ar(opening, causes, report)
    }

    /// Asks whether some chosen repair has a cause, cause by cause.
    fn ask_brave<L: Report>(
        &mut self,
        opening: &mut Opening,
        causes: &[Ids],
        report: &mut L,
    ) -> Result<(), ClassifyFault>
        requires open { IsOpen self.old.conflicts.now self.old.better.now self.old.solver opening.old causes.now }
        requires room { self.old.solver.next + self.old.plan.budget < 2 ^ 64 }
        requires few { self.old.cores < 2 ^ 64 - 1 }
        requires none_torn { L.torn report.old ≡ None }

        ensures follows { OnOk result (ForEachFrame self.old.conflicts.now self.old.better.now causes.now opening.old self.old.plan.budget
            (λ w more. FollowsOpen w more self.old.solver self.old.cores (AtBrave [] 0) opening.old.evidence
            → GoesOn w more self.new.solver self.new.cores (AtIar 0) opening.new.evidence (L.lines report.old) (L.lines report.new))) }
        ensures stops { OnErr result (ForEachFrame self.old.conflicts.now self.old.better.now causes.now opening.old self.old.plan.budget
            (λ w more. FollowsOpen w more self.old.solver self.old.cores (AtBrave [] 0) opening.old.evidence
            → StopsAfter w more (L.lines report.old) (L.lines report.new) (L.torn report.new))) }

        ensures still_open { OnOk result (IsOpen self.new.conflicts.now self.new.better.now self.new.solver opening.new causes.now) }
        ensures same { IsSameOpening opening.old opening.new }
        ensures spent { OnOk result (self.new.solver.next ≤ self.old.solver.next + self.old.plan.budget) }
        ensures variables { OnOk result (self.new.solver.variables ≡ self.old.solver.variables) }
        ensures counted { OnOk result (self.new.cores ≤ self.old.cores + 1) }
        ensures only { self.new ≡ record self.old { solver = self.new.solver; cores = self.new.cores } }
        ensures fault { TellsFault (L.faults report.old) (L.faults report.new) (is_report_fault result) }
        ensures none_torn { OnOk result (L.torn report.new ≡ None) }
        ensures same_target { L.target report.new ≡ L.target report.old }
    {
        let mut budget = self.whole_budget();
        for (place, cause) in causes.iter().enumerate() {
            let facts = cause.as_slice();
            if is_among(&causes[..place], facts) {
                continue;
            }
            let how = self.ask_cause(opening, causes, facts, &mut budget, report)?;
            if how == How::Model {
                return Ok(());
            }
        }
        opening.evidence.see_brave_over();
        Ok(())
    }

    /// The brave try of a cause. Where it ended spent, the evidence has it.
    fn ask_cause<L: Report>(
        &mut self,
        opening: &mut Opening,
        causes: &[Ids],
        cause: &[u32],
        budget: &mut Budget,
        report: &mut L,
    ) -> Result<How, ClassifyFault>
        requires open { IsOpen self.old.conflicts.now self.old.better.now self.old.solver opening.old causes.now }
        requires over { Contains causes.now cause.now }
        requires room { HasRoom self.old.solver budget.old }
        requires few { self.old.cores < 2 ^ 64 - 1 }
        requires none_torn { L.torn report.old ≡ None }

        ensures follows { IfOk result (λ how. ForEachFrame self.old.conflicts.now self.old.better.now causes.now opening.old budget.old.limit
            (λ w more. (done : List (List ℕ)) → FollowsOpen w more self.old.solver self.old.cores (AtBrave done budget.old.used) opening.old.evidence
            → ¬ Contains done cause.now → CauseGoesOn w more self.new.solver self.new.cores done cause.now budget.new.used opening.new.evidence
            (L.lines report.old) (L.lines report.new) how)) }
        ensures stops { OnErr result (ForEachFrame self.old.conflicts.now self.old.better.now causes.now opening.old budget.old.limit
            (λ w more. (done : List (List ℕ)) → FollowsOpen w more self.old.solver self.old.cores (AtBrave done budget.old.used) opening.old.evidence
            → ¬ Contains done cause.now → StopsAfter w more (L.lines report.old) (L.lines report.new) (L.torn report.new))) }

        ensures still_open { OnOk result (IsOpen self.new.conflicts.now self.new.better.now self.new.solver opening.new causes.now) }
        ensures same { IsSameOpening opening.old opening.new }
        ensures spends { OnOk result (Spends self.old.solver self.new.solver budget.old budget.new) }
        ensures variables { OnOk result (self.new.solver.variables ≡ self.old.solver.variables) }
        ensures counted { IfOk result (λ how. self.new.cores ≡ cores_after how self.old.cores) }
        ensures only { self.new ≡ record self.old { solver = self.new.solver; cores = self.new.cores } }
        ensures fault { TellsFault (L.faults report.old) (L.faults report.new) (is_report_fault result) }
        ensures none_torn { OnOk result (L.torn report.new ≡ None) }
        ensures same_target { L.target report.new ≡ L.target report.old }
    {
        let how = self.try_for(opening, causes, &Aim::WithCause(cause), budget, report)?;
        if how == How::Spent {
            opening.evidence.see_brave_spent();
        }
        Ok(how)
    }

    /// Asks whether the facts that are in all chosen repairs have a cause, fact by fact.
    fn ask_iar<L: Report>(
        &mut self,
        opening: &mut Opening,
        causes: &[Ids],
        report: &mut L,
    ) -> Result<(), ClassifyFault>
        requires open { IsOpen self.old.conflicts.now self.old.better.now self.old.solver opening.old causes.now }
        requires room { self.old.solver.next + self.old.plan.budget < 2 ^ 64 }
        requires few { self.old.cores + length causes.now < 2 ^ 64 }
        requires none_torn { L.torn report.old ≡ None }

        ensures follows { OnOk result (ForEachFrame self.old.conflicts.now self.old.better.now causes.now opening.old self.old.plan.budget
            (λ w more. FollowsOpen w more self.old.solver self.old.cores (AtIar 0) opening.old.evidence
            → IarGoesOn w more causes.now self.new.solver self.new.cores opening.new.evidence (L.lines report.old) (L.lines report.new))) }
        ensures stops { OnErr result (ForEachFrame self.old.conflicts.now self.old.better.now causes.now opening.old self.old.plan.budget
            (λ w more. FollowsOpen w more self.old.solver self.old.cores (AtIar 0) opening.old.evidence
            → StopsAfter w more (L.lines report.old) (L.lines report.new) (L.torn report.new))) }

        ensures still_open { OnOk result (IsOpen self.new.conflicts.now self.new.better.now self.new.solver opening.new causes.now) }
        ensures same { IsSameOpening opening.old opening.new }
        ensures spent { OnOk result (self.new.solver.next ≤ self.old.solver.next + self.old.plan.budget) }
        ensures variables { OnOk result (self.new.solver.variables ≡ self.old.solver.variables) }
        ensures counted { OnOk result (self.new.cores ≤ self.old.cores + length causes.now) }
        ensures only { self.new ≡ record self.old { solver = self.new.solver; cores = self.new.cores } }
        ensures fault { TellsFault (L.faults report.old) (L.faults report.new) (is_report_fault result) }
        ensures none_torn { OnOk result (L.torn report.new ≡ None) }
        ensures same_target { L.target report.new ≡ L.target report.old }
    {
        let mut budget = self.whole_budget();
        for (place, cause) in causes.iter().enumerate() {
            if opening.evidence.is_settled(Question::Iar) {
                return Ok(());
            }
            if opening.evidence.is_cut(place) {
                continue;
            }
            self.ask_facts(opening, causes, cause.as_slice(), &mut budget, report)?;
        }
        Ok(())
    }

    /// Asks of the facts of a cause whether all chosen repairs have them, up to the first that isn't shown to be in all, or to the end of
    /// the question.
    fn ask_facts<L: Report>(
        &mut self,
        opening: &mut Opening,
        causes: &[Ids],
        facts: &[u32],
        budget: &mut Budget,
        report: &mut L,
    ) -> Result<(), ClassifyFault>
        requires open { IsOpen self.old.conflicts.now self.old.better.now self.old.solver opening.old causes.now }
        requires over { Contains causes.now facts.now }
        requires room { HasRoom self.old.solver budget.old }
        requires few { self.old.cores < 2 ^ 64 - 1 }
        requires none_torn { L.torn report.old ≡ None }

        ensures follows { OnOk result ((place : ℕ) → IsCauseAt causes.now opening.old.evidence place facts.now
            → ForEachFrame self.old.conflicts.now self.old.better.now causes.now opening.old budget.old.limit
            (λ w more. FollowsOpen w more self.old.solver self.old.cores (AtIar budget.old.used) opening.old.evidence
            → PlaceGoesOn w more causes.now place self.new.solver self.new.cores budget.new.used opening.old.evidence opening.new.evidence
            (L.lines report.old) (L.lines report.new))) }
        ensures stops { OnErr result ((place : ℕ) → IsCauseAt causes.now opening.old.evidence place facts.now
            → ForEachFrame self.old.conflicts.now self.old.better.now causes.now opening.old budget.old.limit
            (λ w more. FollowsOpen w more self.old.solver self.old.cores (AtIar budget.old.used) opening.old.evidence
            → StopsAfter w more (L.lines report.old) (L.lines report.new) (L.torn report.new))) }

        ensures still_open { OnOk result (IsOpen self.new.conflicts.now self.new.better.now self.new.solver opening.new causes.now) }
        ensures same { IsSameOpening opening.old opening.new }
        ensures spends { OnOk result (Spends self.old.solver self.new.solver budget.old budget.new) }
        ensures variables { OnOk result (self.new.solver.variables ≡ self.old.solver.variables) }
        ensures counted { OnOk result (self.new.cores ≤ self.old.cores + 1) }
        ensures only { self.new ≡ record self.old { solver = self.new.solver; cores = self.new.cores } }
        ensures fault { TellsFault (L.faults report.old) (L.faults report.new) (is_report_fault result) }
        ensures none_torn { OnOk result (L.torn report.new ≡ None) }
        ensures same_target { L.target report.new ≡ L.target report.old }
    {
        for fact in facts {
            if opening.evidence.is_settled(Question::Iar) {
                return Ok(());
            }
            let how = self.how_of_fact(opening, causes, *fact, budget, report)?;
            if how != How::Refuted {
                return Ok(());
            }
        }
        Ok(())
    }

    /// How the IAR try of the fact ended, which is tried now where it wasn't before.
    fn how_of_fact<L: Report>(
        &mut self,
        opening: &mut Opening,
        causes: &[Ids],
        fact: u32,
        budget: &mut Budget,
        report: &mut L,
    ) -> Result<How, ClassifyFault>
        requires open { IsOpen self.old.conflicts.now self.old.better.now self.old.solver opening.old causes.now }
        requires over { (cause : List ℕ) × Contains causes.now cause × Contains cause fact }
        requires room { HasRoom self.old.solver budget.old }
        requires few { self.old.cores < 2 ^ 64 - 1 }
        requires none_torn { L.torn report.old ≡ None }

        ensures follows { OnOk result (ForEachFrame self.old.conflicts.now self.old.better.now causes.now opening.old budget.old.limit
            (λ w more. (place : ℕ) → IsAskedAt causes.now opening.old.evidence place fact
            → FollowsOpen w more self.old.solver self.old.cores (AtIar budget.old.used) opening.old.evidence
            → GoesOn w more self.new.solver self.new.cores (AtIar budget.new.used) opening.new.evidence
            (L.lines report.old) (L.lines report.new))) }
        ensures stops { OnErr result (ForEachFrame self.old.conflicts.now self.old.better.now causes.now opening.old budget.old.limit
            (λ w more. (place : ℕ) → IsAskedAt causes.now opening.old.evidence place fact
            → FollowsOpen w more self.old.solver self.old.cores (AtIar budget.old.used) opening.old.evidence
            → StopsAfter w more (L.lines report.old) (L.lines report.new) (L.torn report.new))) }
        ensures seen { IfOk result (λ how. (place : ℕ) → IsAskedAt causes.now opening.old.evidence place fact
            → PlacesStayOver causes.now opening.old.evidence opening.new.evidence
            × FactIsSeen causes.now place fact opening.old.evidence opening.new.evidence how) }

        ensures still_open { OnOk result (IsOpen self.new.conflicts.now self.new.better.now self.new.solver opening.new causes.now) }
        ensures same { IsSameOpening opening.old opening.new }
        ensures spends { OnOk result (Spends self.old.solver self.new.solver budget.old budget.new) }
        ensures variables { OnOk result (self.new.solver.variables ≡ self.old.solver.variables) }
        ensures counted { IfOk result (λ how. self.new.cores ≡ cores_after how self.old.cores) }
        ensures only { self.new ≡ record self.old { solver = self.new.solver; cores = self.new.cores } }
        ensures fault { TellsFault (L.faults report.old) (L.faults report.new) (is_report_fault result) }
        ensures none_torn { OnOk result (L.torn report.new ≡ None) }
        ensures same_target { L.target report.new ≡ L.target report.old }
    {
        if let Some(how) = opening.evidence.ended(fact) {
            return Ok(how);
        }
        let how = self.try_for(opening, causes, &Aim::WithoutFact(fact), budget, report)?;
        opening.evidence.see_iar(causes, fact, how)?;
        Ok(how)
    }

    /// Asks whether each chosen repair has a cause, by the candidate's variable.
    fn ask_ar<L: Report>(
        &mut self,
        opening: &mut Opening,
        causes: &IdLists,
        report: &mut L,
    ) -> Result<(), ClassifyFault>
        requires open { IsOpen self.old.conflicts.now self.old.better.now self.old.solver opening.old causes.now }
        requires room { self.old.solver.next + self.old.plan.budget < 2 ^ 64 }
        requires few { self.old.cores < 2 ^ 64 - 1 }
        requires none_torn { L.torn report.old ≡ None }

        ensures follows { OnOk result (ForEachFrame self.old.conflicts.now self.old.better.now causes.now opening.old self.old.plan.budget
            (λ w more. (used : ℕ) → FollowsOpen w more self.old.solver self.old.cores (AtIar used) opening.old.evidence
            → IarIsOver causes.now opening.old.evidence
            → GoesOn w more self.new.solver self.new.cores AtEnd opening.new.evidence (L.lines report.old) (L.lines report.new))) }
        ensures stops { OnErr result (ForEachFrame self.old.conflicts.now self.old.better.now causes.now opening.old self.old.plan.budget
            (λ w more. (used : ℕ) → FollowsOpen w more self.old.solver self.old.cores (AtIar used) opening.old.evidence
            → IarIsOver causes.now opening.old.evidence
            → StopsAfter w more (L.lines report.old) (L.lines report.new) (L.torn report.new))) }

        ensures still_open { OnOk result (IsOpen self.new.conflicts.now self.new.better.now self.new.solver opening.new causes.now) }
        ensures same { IsSameOpening opening.old opening.new }
        ensures spent { OnOk result (self.new.solver.next ≤ self.old.solver.next + self.old.plan.budget) }
        ensures variables { OnOk result (self.new.solver.variables ≡ self.old.solver.variables) }
        ensures counted { OnOk result (self.new.cores ≤ self.old.cores + 1) }
        ensures only { self.new ≡ record self.old { solver = self.new.solver; cores = self.new.cores } }
        ensures fault { TellsFault (L.faults report.old) (L.faults report.new) (is_report_fault result) }
        ensures none_torn { OnOk result (L.torn report.new ≡ None) }
        ensures same_target { L.target report.new ≡ L.target report.old }
    {
        if opening.evidence.is_settled(Question::Ar) {
            return Ok(());
        }
        let mut budget = self.whole_budget();
        let aim = Aim::WithoutCauses(causes);
        let how = self.try_for(opening, causes.as_slice(), &aim, &mut budget, report)?;
        if how == How::Refuted {
            opening.evidence.see_ar_refuted();
        }
        Ok(())
    }

    /// The budget of a question of which nothing is used.
    fn whole_budget(&self) -> Budget
        ensures { result ≡ record { limit = self.now.plan.budget; used = 0 } }
    {
        Budget {
            limit: self.plan.budget,
            used: 0,
        }
    }
}
