//! A log of learned clauses over a report: each goes there as a `learn` line.

ghost use Rattle.std.specs.Prelude.{◌≡◌, IfErr, OnOk, None};
ghost use Rattle.proof_logs.specs.Logs.{IsWhole, Appends, Tears, RisesAt};
ghost use Rattle.answer_evidence.specs.Logging.{log_content, OnlyLearns, TearsLearn};

use crate::copies::fit;
use cq_terms::Ids;
use proof_logs::{LogFault, ProofLog};
use report_text::{Line, LineFault, Report};
use std::alloc::Global;

/// A log that writes each learned clause as a line of a report.
#[derive(Drop)]
pub struct ReportLog<'r, L> {
    alloc: Global,
    report: &'r mut L,
}

impl<'r, L: Report> ReportLog<'r, L> {
    /// A log over the report.
    pub fn new(alloc: Global, report: &'r mut L) -> ReportLog<'r, L>
        ensures report { result.report.now ≡ report.old }
        ensures same { result.report.ghost_name ≡ report.entry.ghost_name }
    {
        ReportLog { alloc, report }
    }

    /// Gives the report back.
    pub fn into_report(self) -> &'r mut L
        ensures report { result.now ≡ self.entry.report.now }
        ensures same { result.ghost_name ≡ self.entry.report.ghost_name }
    {
        self.report
    }
}

impl<L: Report> ProofLog for ReportLog<'_, L> {
    ghost use Rattle.std.specs.Prelude.{refl};
    ghost use Rattle.std.proofs.Common.{◌∙◌};
    ghost use Rattle.answer_evidence.specs.LoggingLaws.{OnlyLearns-same, OnlyLearns-on, TearsLearn-same, TearsLearn-on};

    ghost content = { λ log. log_content (L.lines log.report.now) (L.torn log.report.now) };

    ghost faults = { λ log. L.faults log.report.now };

    ghost leads = { λ old new. OnlyLearns (L.lines old.report.now) (L.lines new.report.now)
        × (new.report.ghost_name ≡ old.report.ghost_name) × (L.target new.report.now ≡ L.target old.report.now)
        × TearsLearn (L.torn old.report.now) (L.torn new.report.now) };

    ghost leads_same = { λ a. (OnlyLearns-same (L.lines a.report.now), refl, refl, TearsLearn-same (L.torn a.report.now)) };

    ghost leads_on = { λ a b c p q. (
      OnlyLearns-on (L.lines a.report.now) (L.lines b.report.now) (L.lines c.report.now) p.0 q.0,
      q.1 ∙ p.1,
      q.2 ∙ p.2,
      TearsLearn-on (L.torn a.report.now) (L.torn b.report.now) (L.torn c.report.now) p.3 q.3,
    ) };

    fn learned(&mut self, number: u64, clause: &[u32]) -> Result<(), LogFault> {
        let Ok(clause) = Ids::from_slice(self.alloc, clause) else {
            return Err(LogFault::NoMemory);
        };
        tell_learn(number, clause, self.report)
    }
}

/// Writes a `learn` line.
fn tell_learn<L: Report>(number: u64, clause: Ids, report: &mut L) -> Result<(), LogFault>
    requires whole { L.torn report.old ≡ None }

    ensures exact { OnOk result (Appends (log_content (L.lines report.old) (L.torn report.old))
        (log_content (L.lines report.new) (L.torn report.new)) number clause) }
    ensures torn { IfErr result (Tears (log_content (L.lines report.old) (L.torn report.old))
        (log_content (L.lines report.new) (L.torn report.new)) number clause) }
    ensures fault { IfErr result (RisesAt (L.faults report.old) (L.faults report.new)) }
    ensures no_fault { OnOk result (L.faults report.new ≡ L.faults report.old) }
    ensures only { OnlyLearns (L.lines report.old) (L.lines report.new) }
    ensures tears { TearsLearn (L.torn report.old) (L.torn report.new) }
    ensures same_target { L.target report.new ≡ L.target report.old }
{
    fit(clause.as_slice());
    match report.line(&Line::Learn { number, clause }) {
        Ok(()) => Ok(()),
        Err(LineFault::Failed) => Err(LogFault::Failed),
        Err(LineFault::NoMemory) => Err(LogFault::NoMemory),
    }
}
