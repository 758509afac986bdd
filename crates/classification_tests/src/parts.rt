//! The calls that a report is made by, each called by itself.

ghost use Rattle.std.specs.Prelude.{◌≡◌, ◌≤◌};
ghost use Rattle.answer_desk.specs.Desks.{most_budget};
ghost use Rattle.preparation.specs.Prepared.{IsPrepared};
ghost use Rattle.classification_tests.specs.Told.{IsNamed};

use crate::reports::{Ready, plan, readied, spacious};
use crate::rows::{EACH, PAIRS, SOME_OR_EACH};
use classifier::{ClassifyFault, Desk, Plan, Summary, Verdicts, classify};
use cq_io::MemSink;
use cq_terms::{Repairs, Texts};
use report_text::LineSink;
use std::alloc::Global;
use std::test::Fail;

/// Writes the report on what is prepared by its parts.
fn classified(
    alloc: Global,
    ready: &Ready,
    plan: &Plan,
    sink: &mut MemSink,
) -> Result<Summary, ClassifyFault>
    requires named { IsNamed ready.now.told.kb ready.now.told.query ready.now.told.vocab }
    requires prepared { IsPrepared ready.now.told.kb ready.now.told.query plan.now.repairs ready.now.prepared }
    requires budget { plan.now.budget ≤ most_budget }
{
    let (told, prepared) = (&ready.told, &ready.prepared);
    let _body = told.query.body();
    let candidates = prepared.candidates.as_slice();
    let mut lines = LineSink::new(alloc, sink);
    classify(
        alloc,
        &told.kb,
        &told.vocab,
        &prepared.closure,
        &prepared.found,
        &prepared.better,
        candidates,
        plan,
        &mut lines,
    )
}

/// What a new desk answers to the first candidate, which has no individual, where there is one.
fn first_answer(
    alloc: Global,
    ready: &Ready,
    plan: &Plan,
    sink: &mut MemSink,
) -> Result<Option<Verdicts>, Fail>
    requires named { IsNamed ready.now.told.kb ready.now.told.query ready.now.told.vocab }
    requires prepared { IsPrepared ready.now.told.kb ready.now.told.query plan.now.repairs ready.now.prepared }
    requires budget { plan.now.budget ≤ most_budget }
{
    let (told, prepared) = (&ready.told, &ready.prepared);
    let _body = told.query.body();
    let candidates = prepared.candidates.as_slice();
    if candidates.is_empty() {
        return Ok(None);
    }
    let conflicts = &prepared.found.conflicts;
    let facts = conflicts.facts();
    let selectors = candidates.len() as u32;
    let mut desk = Desk::new(alloc, conflicts, &prepared.better, facts, selectors, plan)?;
    let mut lines = LineSink::new(alloc, sink);
    let names = Texts::new(alloc);
    let verdicts = desk.answer(0, &candidates[0], &names, &mut lines)?;
    Ok(Some(verdicts))
}

/// What `classify` counts of what is ready.
fn counted_of(alloc: Global, ready: &Ready, plan: &Plan) -> Result<Summary, Fail>
    requires named { IsNamed ready.now.told.kb ready.now.told.query ready.now.told.vocab }
    requires prepared { IsPrepared ready.now.told.kb ready.now.told.query plan.now.repairs ready.now.prepared }
    requires budget { plan.now.budget ≤ most_budget }
{
    let mut sink = spacious(alloc, None)?;
    let summary = classified(alloc, ready, plan, &mut sink)?;
    Ok(summary)
}

/// What `classify` counts of the pairs within a budget of one.
fn counted(alloc: Global) -> Result<Summary, Fail> {
    let ready = readied(alloc, &PAIRS, Repairs::Pareto)?;
    let plan = plan(1, Repairs::Pareto);
    counted_of(alloc, &ready, &plan)
}

/// What a new desk answers to what is ready.
fn answered_of(alloc: Global, ready: &Ready, plan: &Plan) -> Result<Option<Verdicts>, Fail>
    requires named { IsNamed ready.now.told.kb ready.now.told.query ready.now.told.vocab }
    requires prepared { IsPrepared ready.now.told.kb ready.now.told.query plan.now.repairs ready.now.prepared }
    requires budget { plan.now.budget ≤ most_budget }
{
    let mut sink = spacious(alloc, None)?;
    first_answer(alloc, ready, plan, &mut sink)
}

/// What a new desk answers to the pairs within the budget.
fn answered(alloc: Global, budget: u64) -> Result<Option<Verdicts>, Fail>
    requires budget { budget ≤ most_budget }
{
    let ready = readied(alloc, &PAIRS, Repairs::Pareto)?;
    let plan = plan(budget, Repairs::Pareto);
    answered_of(alloc, &ready, &plan)
}

#[test]
fn a_classification_counts_its_answers(rt: HostRuntime) -> Result<(), Fail> {
    let summary = counted(rt.alloc())?;
    assert_eq!(rt;
        summary,
        Summary {
            answers: 1,
            brave: 1,
            ar: 1,
            iar: 0,
            undecided: 0
        }
    );
    Ok(())
}

#[test]
fn a_desk_answers_a_candidate(rt: HostRuntime) -> Result<(), Fail> {
    let settled = answered(rt.alloc(), 1)?;
    assert_eq!(rt; settled, Some(EACH));
    let open = answered(rt.alloc(), 0)?;
    assert_eq!(rt; open, Some(SOME_OR_EACH));
    Ok(())
}

#[test]
fn an_open_verdict_is_undecided(rt: HostRuntime) {
    assert!(rt; SOME_OR_EACH.has_undecided());
    assert!(rt; !EACH.has_undecided());
}
