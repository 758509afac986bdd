//! Reports that are judged by the rules, by a confirmer that knows nothing of what wrote them.

ghost use Rattle.std.specs.Prelude.{◌≤◌};
ghost use Rattle.answer_desk.specs.Desks.{most_budget};

use crate::reports::report;
use crate::rows::{PAIRS, WATCHERS};
use crate::tables::{Numbers, Table};
use crate::texts::{Input, Told, read};
use cq_terms::Repairs;
use refutation_confirmer::{Confirmed, confirm};
use std::alloc::Global;
use std::process::Abort;
use std::test::Fail;

/// What the rules say of the report on the input.
fn judged(
    alloc: Global,
    input: &Input<'_>,
    budget: u64,
    repairs: Repairs,
) -> Result<Confirmed, Fail>
    requires budget { budget ≤ most_budget }
{
    let written = report(alloc, input, budget, repairs)?;
    let told = read(alloc, input)?;
    confirmed(alloc, &told, written.sink.written())
}

/// What the rules say of a report of at most 2^20 bytes on what was told.
fn confirmed(alloc: Global, told: &Told, report: &[u8]) -> Result<Confirmed, Fail> {
    if report.len() > 1 << 20 {
        return Err(Fail::from("a report is long"));
    }
    Ok(confirm(alloc, &told.kb, &told.vocab, &told.query, report)?)
}

/// The report is accepted with so many answers.
fn is_accepted(rt: &impl Abort, confirmed: Confirmed, answers: u64) {
    assert_eq!(rt; confirmed, Confirmed::Yes { answers });
}

#[test]
fn reports_on_the_pairs_are_accepted(rt: HostRuntime) -> Result<(), Fail> {
    let open = judged(rt.alloc(), &PAIRS, 0, Repairs::Pareto)?;
    is_accepted(&rt, open, 1);
    let settled = judged(rt.alloc(), &PAIRS, 1, Repairs::Pareto)?;
    is_accepted(&rt, settled, 1);
    Ok(())
}

#[test]
fn a_report_without_a_search_is_accepted(rt: HostRuntime) -> Result<(), Fail> {
    let input = Input {
        query: "<- Low(?x)",
        ..PAIRS
    };
    let direct = judged(rt.alloc(), &input, 0, Repairs::Pareto)?;
    is_accepted(&rt, direct, 1);
    Ok(())
}

#[test]
fn reports_on_the_watchers_are_accepted(rt: HostRuntime) -> Result<(), Fail> {
    let chosen = judged(rt.alloc(), &WATCHERS, 20000, Repairs::Pareto)?;
    is_accepted(&rt, chosen, 2);
    let all = judged(rt.alloc(), &WATCHERS, 20000, Repairs::All)?;
    is_accepted(&rt, all, 2);
    Ok(())
}

/// The reports on the table are accepted, with one answer where it has a candidate: within a large budget over both kinds of
/// repairs, and without a budget.
fn is_judged(rt: &impl Abort, alloc: Global, table: &Table) -> Result<(), Fail> {
    let texts = table.texts(alloc)?;
    let answers = u64::from(table.has_candidate());
    let all = judged(alloc, &texts.input(), 20000, Repairs::All)?;
    is_accepted(rt, all, answers);
    let chosen = judged(alloc, &texts.input(), 20000, Repairs::Pareto)?;
    is_accepted(rt, chosen, answers);
    let open = judged(alloc, &texts.input(), 0, Repairs::Pareto)?;
    is_accepted(rt, open, answers);
    Ok(())
}

#[test]
fn reports_on_random_tables_are_accepted(rt: HostRuntime) -> Result<(), Fail> {
    let mut numbers = Numbers::new();
    for _ in 0..60 {
        let table = Table::random(&mut numbers);
        is_judged(&rt, rt.alloc(), &table)?;
    }
    Ok(())
}
