//! A report that fails at one of its lines.

ghost use Rattle.std.specs.Prelude.{◌≤◌, length};
ghost use Rattle.answer_desk.specs.Desks.{most_budget};
ghost use Rattle.preparation.specs.Prepared.{IsPrepared};
ghost use Rattle.classification_tests.specs.Told.{IsNamed};

use crate::reports::{Ready, plan, readied, report_on, spacious, write};
use crate::rows::PAIRS;
use classifier::{ClassifyFault, Plan};
use cq_terms::Repairs;
use std::alloc::Global;
use std::test::Fail;

/// Whether the report to a sink that fails after so many bytes ends in the fault of the report, with these bytes of the whole.
fn ends_at(
    alloc: Global,
    ready: &Ready,
    plan: &Plan,
    whole: &[u8],
    count: usize,
) -> Result<bool, Fail>
    requires named { IsNamed ready.now.told.kb ready.now.told.query ready.now.told.vocab }
    requires prepared { IsPrepared ready.now.told.kb ready.now.told.query plan.now.repairs ready.now.prepared }
    requires budget { plan.now.budget ≤ most_budget }
    requires inside { count ≤ length whole.now }
{
    let mut sink = spacious(alloc, Some(count as u64))?;
    let fault = write(alloc, ready, plan, &mut sink).err();
    Ok(fault == Some(ClassifyFault::Report) && sink.written() == &whole[..count])
}

/// At how many lines the report ends rightly, where it fails at their ends, before the first at which it doesn't.
fn ends(alloc: Global, ready: &Ready, plan: &Plan, whole: &[u8]) -> Result<u32, Fail>
    requires named { IsNamed ready.now.told.kb ready.now.told.query ready.now.told.vocab }
    requires prepared { IsPrepared ready.now.told.kb ready.now.told.query plan.now.repairs ready.now.prepared }
    requires budget { plan.now.budget ≤ most_budget }
{
    let mut lines: u32 = 0;
    for (place, byte) in whole.iter().enumerate() {
        if *byte == b'\n' {
            if !ends_at(alloc, ready, plan, whole, place)? {
                break;
            }
            lines = lines.saturating_add(1);
        }
    }
    Ok(lines)
}

/// At how many of its lines the report ends rightly, before the first at which it doesn't, and how many it has.
fn ends_of(alloc: Global, ready: &Ready, plan: &Plan) -> Result<(u32, usize), Fail>
    requires named { IsNamed ready.now.told.kb ready.now.told.query ready.now.told.vocab }
    requires prepared { IsPrepared ready.now.told.kb ready.now.told.query plan.now.repairs ready.now.prepared }
    requires budget { plan.now.budget ≤ most_budget }
{
    let written = report_on(alloc, ready, plan)?;
    let whole = written.sink.written();
    let ends = ends(alloc, ready, plan, whole)?;
    Ok((ends, lines(whole)))
}

/// How many lines there are.
fn lines(report: &[u8]) -> usize {
    report.iter().filter(|byte| **byte == b'\n').count()
}

/// The same of the report on the pairs.
fn ends_of_pairs(alloc: Global) -> Result<(u32, usize), Fail> {
    let ready = readied(alloc, &PAIRS, Repairs::Pareto)?;
    let plan = plan(1, Repairs::Pareto);
    ends_of(alloc, &ready, &plan)
}

#[test]
fn nothing_is_written_after_the_line_that_fails(rt: HostRuntime) -> Result<(), Fail> {
    let (ends, lines) = ends_of_pairs(rt.alloc())?;
    assert!(rt; lines > 10, "{lines}");
    assert_eq!(rt; ends as usize, lines);
    Ok(())
}
