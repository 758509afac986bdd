//! The report on an input.

ghost use Rattle.std.specs.Prelude.{◌≡◌, ◌≤◌, IfOk};
ghost use Rattle.answer_desk.specs.Desks.{most_budget};
ghost use Rattle.preparation.specs.Prepared.{IsPrepared};
ghost use Rattle.classification_tests.specs.Told.{IsNamed};

use crate::texts::{Input, Told, read};
use classifier::{ClassifyFault, Plan, Summary};
use cq_io::MemSink;
use cq_terms::{NoMemory, Repairs};
use preparation::{Limits, Prepared, prepare};
use query_report::write_report;
use report_text::LineSink;
use std::alloc::Global;
use std::test::Fail;

/// Limits that no input here comes near.
pub(crate) const LIMITS: Limits = Limits {
    members: 100,
    conflicts: 100,
    supports: 100,
};

/// What an input says, and what is prepared of it.
#[derive(Drop)]
pub(crate) struct Ready {
    pub(crate) told: Told,
    pub(crate) prepared: Prepared,
}

/// Reads and prepares the input.
pub(crate) fn readied(alloc: Global, input: &Input<'_>, repairs: Repairs) -> Result<Ready, Fail>
    ensures named { IfOk result (λ ready. IsNamed ready.told.kb ready.told.query ready.told.vocab) }
    ensures prepared { IfOk result (λ ready. IsPrepared ready.told.kb ready.told.query repairs ready.prepared) }
{
    let told = read(alloc, input)?;
    let prepared = prepare(alloc, &told.kb, &told.query, repairs, &LIMITS)?;
    Ok(Ready { told, prepared })
}

/// A report in memory, and what its writer counts.
#[derive(Drop)]
pub(crate) struct Written {
    pub(crate) sink: MemSink,
    pub(crate) summary: Summary,
}

/// The report on the input.
pub(crate) fn report(
    alloc: Global,
    input: &Input<'_>,
    budget: u64,
    repairs: Repairs,
) -> Result<Written, Fail>
    requires budget { budget ≤ most_budget }
{
    let ready = readied(alloc, input, repairs)?;
    let plan = plan(budget, repairs);
    report_on(alloc, &ready, &plan)
}

/// The report on what is ready.
pub(crate) fn report_on(alloc: Global, ready: &Ready, plan: &Plan) -> Result<Written, Fail>
    requires named { IsNamed ready.now.told.kb ready.now.told.query ready.now.told.vocab }
    requires prepared { IsPrepared ready.now.told.kb ready.now.told.query plan.now.repairs ready.now.prepared }
    requires budget { plan.now.budget ≤ most_budget }
{
    let mut sink = spacious(alloc, None)?;
    let summary = write(alloc, ready, plan, &mut sink)?;
    Ok(Written { sink, summary })
}

/// Writes the report on what is ready to the sink.
pub(crate) fn write(
    alloc: Global,
    ready: &Ready,
    plan: &Plan,
    sink: &mut MemSink,
) -> Result<Summary, ClassifyFault>
    requires named { IsNamed ready.now.told.kb ready.now.told.query ready.now.told.vocab }
    requires prepared { IsPrepared ready.now.told.kb ready.now.told.query plan.now.repairs ready.now.prepared }
    requires budget { plan.now.budget ≤ most_budget }
{
    let told = &ready.told;
    let mut lines = LineSink::new(alloc, sink);
    write_report(
        alloc,
        &told.kb,
        &told.vocab,
        &told.query,
        &ready.prepared,
        plan,
        &mut lines,
    )
}

/// The plan with the budget in the mode.
pub(crate) fn plan(budget: u64, repairs: Repairs) -> Plan
    ensures budget { result.budget ≡ budget }
    ensures repairs { result.repairs ≡ repairs }
{
    Plan {
        budget,
        keep: 20000,
        repairs,
    }
}

/// A sink with room for 65,536 bytes.
pub(crate) fn spacious(alloc: Global, fail_after: Option<u64>) -> Result<MemSink, NoMemory> {
    let mut sink = MemSink::new(alloc, fail_after);
    sink.reserve(1 << 16)?;
    Ok(sink)
}
