//! A try: a direct core of what it looks for, or a search over the scope; with its lines.

ghost use Rattle.std.specs.Prelude.{◌≡◌, ◌≢◌, ◌<◌, ◌≤◌, ◌+◌, ◌-◌, ◌^◌, ◌∷◌, [], List, ℕ, None, Some, length, IfOk, OnOk, OnErr};
ghost use Rattle.clause_meaning.specs.Assignments.{IsInside};
ghost use Rattle.clause_meaning.specs.Learning.{is_in};
ghost use Rattle.proof_logs.specs.Logs.{Learned};
ghost use Rattle.cdcl_core.specs.Solving.{Learns, Ends, cleared};
ghost use Rattle.cq_io.specs.Faults.{TellsFault};
ghost use Rattle.cq_terms.specs.Lists.{IsAscending};
ghost use Rattle.report_text.specs.declared.line.Line.{Line};
ghost use Rattle.report_text.specs.declared.line.Line.TheVariants as line;
ghost use Rattle.report_text.specs.Reports.{AddsLine, StayTold};
ghost use Rattle.answer_evidence.specs.Aims.{IsOver, assumed_for};
ghost use Rattle.answer_desk.specs.Answering.{is_report_fault};
ghost use Rattle.answer_evidence.specs.Logging.{AddsLearns};
ghost use Rattle.answer_desk.specs.Openings.{IsOpen, HasRoom, Spends, IsSameOpening, IsTornAs};
ghost use Rattle.answer_evidence.specs.Shown.{SeesCore};
ghost use Rattle.answer_desk.specs.Trying.{Gets, Tries, BreaksOff, BreaksSearch, try_at, cores_after, core_lines, IsPartOf};

use crate::ClassifyFault;
use crate::work::Work;
use answer_evidence::{Aim, Opening, ReportLog, fit};
use cdcl_core::{Budget, Outcome};
use cq_terms::Ids;
use explainer::Core;
use report_text::{How, Line, Question, Report};

impl Work<'_> {
    /// A try: it ends with a core that shows what it looks for, refuted, or spent.
    pub(super) fn try_for<L: Report>(
        &mut self,
        opening: &mut Opening,
        causes: &[Ids],
        aim: &Aim<'_>,
        budget: &mut Budget,
        report: &mut L,
    ) -> Result<How, ClassifyFault>
        requires open { IsOpen self.old.conflicts.now self.old.better.now self.old.solver opening.old causes.now }
        requires over { IsOver causes.now aim.now }
        requires room { HasRoom self.old.solver budget.old }
        requires few { self.old.cores < 2 ^ 64 - 1 }
        requires none_torn { L.torn report.old ≡ None }

        ensures tried { IfOk result (Tries (try_at self.old.better.now self.old.conflicts.now opening.old self.old.cores aim.now)
            (record { old = self.old.solver; new = self.new.solver; was = budget.old; now = budget.new }) causes.now
            opening.old.evidence opening.new.evidence (L.lines report.old) (L.lines report.new)) }
        ensures broken { OnErr result ((added : List Line)
            × BreaksOff (try_at self.old.better.now self.old.conflicts.now opening.old self.old.cores aim.now)
            (record { old = self.old.solver; new = self.new.solver; was = budget.old; now = budget.new }) added
            × Gets (L.lines report.old) (L.lines report.new) (L.torn report.new) added) }

        ensures still_open { OnOk result (IsOpen self.new.conflicts.now self.new.better.now self.new.solver opening.new causes.now) }
        ensures same { IsSameOpening opening.old opening.new }
        ensures spends { OnOk result (Spends self.old.solver self.new.solver budget.old budget.new) }
        ensures counted { IfOk result (λ how. self.new.cores ≡ cores_after how self.old.cores) }
        ensures only { self.new ≡ record self.old { solver = self.new.solver; cores = self.new.cores } }
        ensures fault { TellsFault (L.faults report.old) (L.faults report.new) (is_report_fault result) }
        ensures none_torn { OnOk result (L.torn report.new ≡ None) }
        ensures same_target { L.target report.new ≡ L.target report.old }
    {
        let assume = aim.assumed(self.alloc, opening.selector)?;
        self.try_assuming(opening, causes, aim, assume.as_slice(), budget, report)
    }

    /// The same, with what it assumes.
    fn try_assuming<L: Report>(
        &mut self,
        opening: &mut Opening,
        causes: &[Ids],
        aim: &Aim<'_>,
        assume: &[u32],
        budget: &mut Budget,
        report: &mut L,
    ) -> Result<How, ClassifyFault>
        requires open { IsOpen self.old.conflicts.now self.old.better.now self.old.solver opening.old causes.now }
        requires over { IsOver causes.now aim.now }
        requires assumed { assume.now ≡ assumed_for aim.now opening.old.selector }
        requires room { HasRoom self.old.solver budget.old }
        requires few { self.old.cores < 2 ^ 64 - 1 }
        requires none_torn { L.torn report.old ≡ None }

        ensures tried { IfOk result (Tries (try_at self.old.better.now self.old.conflicts.now opening.old self.old.cores aim.now)
            (record { old = self.old.solver; new = self.new.solver; was = budget.old; now = budget.new }) causes.now
            opening.old.evidence opening.new.evidence (L.lines report.old) (L.lines report.new)) }
        ensures broken { OnErr result ((added : List Line)
            × BreaksOff (try_at self.old.better.now self.old.conflicts.now opening.old self.old.cores aim.now)
            (record { old = self.old.solver; new = self.new.solver; was = budget.old; now = budget.new }) added
            × Gets (L.lines report.old) (L.lines report.new) (L.torn report.new) added) }

        ensures still_open { OnOk result (IsOpen self.new.conflicts.now self.new.better.now self.new.solver opening.new causes.now) }
        ensures same { IsSameOpening opening.old opening.new }
        ensures spends { OnOk result (Spends self.old.solver self.new.solver budget.old budget.new) }
        ensures counted { IfOk result (λ how. self.new.cores ≡ cores_after how self.old.cores) }
        ensures only { self.new ≡ record self.old { solver = self.new.solver; cores = self.new.cores } }
        ensures fault { TellsFault (L.faults report.old) (L.faults report.new) (is_report_fault result) }
        ensures none_torn { OnOk result (L.torn report.new ≡ None) }
        ensures same_target { L.target report.new ≡ L.target report.old }
    {
        self.tell_try(aim.question(), assume, report)?;
        if let Some(core) = self.direct_core(aim)? {
            return self.tell_core(opening, causes, core, report);
        }
        match self.search(opening, causes, assume, budget, report)? {
            Outcome::Model => {
                let core = self.core_of_model(opening, causes, aim)?;
                self.tell_core(opening, causes, core, report)
            }
            Outcome::Refuted => tell_done(How::Refuted, report),
            Outcome::Spent => tell_done(How::Spent, report),
        }
    }

    /// Searches the clauses of the scope, with a `learn` line for each clause that is learned.
    fn search<L: Report>(
        &mut self,
        opening: &Opening,
        causes: &[Ids],
        assume: &[u32],
        budget: &mut Budget,
        report: &mut L,
    ) -> Result<Outcome, ClassifyFault>
        requires open { IsOpen self.old.conflicts.now self.old.better.now self.old.solver opening.now causes.now }
        requires inside { IsInside (is_in opening.now.scope.items) assume.now }
        requires room { HasRoom self.old.solver budget.old }
        requires none_torn { L.torn report.old ≡ None }

        // Each clause that was learned has its line.
        ensures learned { (entries : List Learned)
            × Learns (cleared self.old.solver) (cleared self.new.solver) opening.now.scope.items assume.now budget.old budget.new entries
            × AddsLearns (L.lines report.old) (L.lines report.new) entries }
        ensures ends { IfOk result (Ends self.new.solver opening.now.scope.items assume.now budget.new) }
        ensures broken { OnErr result
            (BreaksSearch self.new.solver opening.now.scope.items assume.now budget.new (L.lines report.old) (L.torn report.new)) }

        ensures still_open { IsOpen self.new.conflicts.now self.new.better.now self.new.solver opening.now causes.now }
        ensures spends { Spends self.old.solver self.new.solver budget.old budget.new }
        ensures only_solver { self.new ≡ record self.old { solver = self.new.solver } }
        ensures fault { TellsFault (L.faults report.old) (L.faults report.new) (is_report_fault result) }
        ensures none_torn { OnOk result (L.torn report.new ≡ None) }
        ensures same_target { L.target report.new ≡ L.target report.old }
    {
        let mut log = ReportLog::new(self.alloc, report);
        let solved = self
            .solver
            .solve(opening.scope.as_slice(), assume, budget, &mut log);
        let _report = log.into_report();
        Ok(solved?)
    }

    /// Writes a `try` line.
    fn tell_try<L: Report>(
        &self,
        question: Question,
        assume: &[u32],
        report: &mut L,
    ) -> Result<(), ClassifyFault>
        requires none_torn { L.torn report.old ≡ None }

        ensures added { OnOk result (AddsLine (L.lines report.old) (L.lines report.new) (line.Try question assume.now)) }
        ensures unchanged { OnErr result (StayTold (L.lines report.old) (L.lines report.new)) }
        ensures torn { IsTornAs result (L.torn report.new) (line.Try question assume.now) }
        ensures fault { TellsFault (L.faults report.old) (L.faults report.new) (is_report_fault result) }
        ensures same_target { L.target report.new ≡ L.target report.old }
    {
        let assume = Ids::from_slice(self.alloc, assume)?;
        report.line(&Line::Try { question, assume })?;
        Ok(())
    }

    /// Ends a try with a core, which is evidence from then on.
    fn tell_core<L: Report>(
        &mut self,
        opening: &mut Opening,
        causes: &[Ids],
        core: Core,
        report: &mut L,
    ) -> Result<How, ClassifyFault>
        requires cut { length opening.old.evidence.cut.items ≡ length causes.now }
        requires kept { IsAscending core.kept }
        requires dropped { IsAscending core.dropped }
        requires few { self.old.cores < 2 ^ 64 - 1 }
        requires none_torn { L.torn report.old ≡ None }

        ensures seen { SeesCore causes.now core.kept core.dropped opening.old.evidence opening.new.evidence }
        ensures same { IsSameOpening opening.old opening.new }
        ensures counted { OnOk result (self.new.cores ≡ self.old.cores + 1) }
        ensures only { self.new ≡ record self.old { cores = self.new.cores } }
        ensures model { IfOk result (λ how. how ≡ How.Model) }
        ensures told { OnOk result (Gets (L.lines report.old) (L.lines report.new) None (core_lines self.old.cores core.kept core.dropped)) }
        ensures broken { OnErr result ((last : List Line) × IsPartOf self.old.cores core.kept core.dropped last
            × Gets (L.lines report.old) (L.lines report.new) (L.torn report.new) last) }
        ensures fault { TellsFault (L.faults report.old) (L.faults report.new) (is_report_fault result) }
        ensures none_torn { OnOk result (L.torn report.new ≡ None) }
        ensures same_target { L.target report.new ≡ L.target report.old }
    {
        opening
            .evidence
            .see_core(causes, core.kept.as_slice(), core.dropped.as_slice());
        let number = self.cores;
        tell_core_line(number, core, report)?;
        self.cores += 1;
        tell_model(number, report)
    }
}

/// Writes a `core` line.
fn tell_core_line<L: Report>(number: u64, core: Core, report: &mut L) -> Result<(), ClassifyFault>
    requires none_torn { L.torn report.old ≡ None }

    ensures added { OnOk result (AddsLine (L.lines report.old) (L.lines report.new) (line.Core number core.kept core.dropped)) }
    ensures unchanged { OnErr result (StayTold (L.lines report.old) (L.lines report.new)) }
    ensures torn { IsTornAs result (L.torn report.new) (line.Core number core.kept core.dropped) }
    ensures fault { TellsFault (L.faults report.old) (L.faults report.new) (is_report_fault result) }
    ensures same_target { L.target report.new ≡ L.target report.old }
{
    fit(core.kept.as_slice());
    fit(core.dropped.as_slice());
    report.line(&Line::Core {
        number,
        kept: core.kept,
        dropped: core.dropped,
    })?;
    Ok(())
}

/// Ends a try with the core of the number.
fn tell_model<L: Report>(number: u64, report: &mut L) -> Result<How, ClassifyFault>
    requires none_torn { L.torn report.old ≡ None }

    ensures added { OnOk result (AddsLine (L.lines report.old) (L.lines report.new) (line.Done How.Model (Some number))) }
    ensures unchanged { OnErr result (StayTold (L.lines report.old) (L.lines report.new)) }
    ensures torn { IsTornAs result (L.torn report.new) (line.Done How.Model (Some number)) }
    ensures model { IfOk result (λ how. how ≡ How.Model) }
    ensures fault { TellsFault (L.faults report.old) (L.faults report.new) (is_report_fault result) }
    ensures same_target { L.target report.new ≡ L.target report.old }
{
    report.line(&Line::Done {
        how: How::Model,
        core: Some(number),
    })?;
    Ok(How::Model)
}

/// Ends a try without a core.
fn tell_done<L: Report>(how: How, report: &mut L) -> Result<How, ClassifyFault>
    requires without_core { how ≢ How.Model }
    requires none_torn { L.torn report.old ≡ None }

    ensures added { OnOk result (AddsLine (L.lines report.old) (L.lines report.new) (line.Done how None)) }
    ensures unchanged { OnErr result (StayTold (L.lines report.old) (L.lines report.new)) }
    ensures torn { IsTornAs result (L.torn report.new) (line.Done how None) }
    ensures same { IfOk result (λ h. h ≡ how) }
    ensures fault { TellsFault (L.faults report.old) (L.faults report.new) (is_report_fault result) }
    ensures same_target { L.target report.new ≡ L.target report.old }
{
    report.line(&Line::Done { how, core: None })?;
    Ok(how)
}
