//! The whole report, over what was prepared.

ghost use Rattle.std.specs.Prelude.{◌≡◌, ◌<◌, ◌≤◌, ◌^◌, [], length, All, IfOk, OnOk, Some, None};
ghost use Rattle.cq_io.specs.Faults.{TellsFault};
ghost use Rattle.cq_terms.specs.declared.facts.Repairs.TheVariants as mode;
ghost use Rattle.preparation.specs.Prepared.{IsFactBelow, IsPrepared, IsTermBelow};
ghost use Rattle.answer_desk.specs.Answering.{is_report_fault};
ghost use Rattle.answer_desk.specs.Desks.{most_budget};
ghost use Rattle.classifier.specs.WholeReports.{CountsHolding, IsSummaryOver, OpenAboveBudget, OpenOfManyCauses, ReportsWhole};

use classifier::{ClassifyFault, Plan, Summary, classify};
use cq_terms::{Cq, Kb, Vocab};
use preparation::Prepared;
use report_text::Report;
use std::alloc::Global;

/// Writes the whole report on a query that is prepared in the mode of the plan, and counts its verdicts. The individuals of the facts
/// and of the query have texts in the names.
pub fn write_report<L: Report>(
    alloc: Global,
    kb: &Kb,
    vocab: &Vocab,
    query: &Cq,
    prepared: &Prepared,
    plan: &Plan,
    report: &mut L,
) -> Result<Summary, ClassifyFault>
    requires prepared { IsPrepared kb.now query.now plan.now.repairs prepared.now }
    requires facts_named { All (IsFactBelow (length vocab.now.inds)) kb.now.facts }
    requires head_named { All (IsTermBelow (length vocab.now.inds)) query.now.head }
    requires axioms_fit { length kb.now.axioms < 2 ^ 32 }
    requires budget_fits { plan.now.budget ≤ most_budget }
    requires none_torn { L.torn report.old ≡ None }

    // Whatever the report tells.
    ensures answers { IfOk result (λ summary. summary.answers ≡ length prepared.now.candidates.items) }
    ensures said { IfOk result (IsSummaryOver prepared.now.found.conflicts prepared.now.better plan.now prepared.now.candidates.items) }
    ensures counts { IfOk result (CountsHolding kb.now plan.now.repairs query.now prepared.now.candidates.items) }
    ensures by_budget { IfOk result (OpenAboveBudget prepared.now.found.conflicts plan.now.budget prepared.now.candidates.items) }
    ensures over_all { plan.now.repairs ≡ mode.All → IfOk result (OpenOfManyCauses prepared.now.candidates.items) }

    // Where it told that it had no line.
    ensures right { L.lines report.old ≡ Some []
        → ReportsWhole kb.now vocab.now.inds query.now plan.now (L.lines report.new) (L.torn report.new) result }

    ensures fault { TellsFault (L.faults report.old) (L.faults report.new) (is_report_fault result) }
    ensures none_torn { OnOk result (L.torn report.new ≡ None) }
    ensures same_target { L.target report.new ≡ L.target report.old }
{
    let _body = query.body();
    let candidates = prepared.candidates.as_slice();
    classify(
        alloc,
        kb,
        vocab,
        &prepared.closure,
        &prepared.found,
        &prepared.better,
        candidates,
        plan,
        report,
    )
}
