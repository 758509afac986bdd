//! The examples of use in the docs of `classify` and `confirm`, line by line.

ghost use Rattle.preparation.specs.Prepared.{IsPrepared};
ghost use Rattle.cq_terms.specs.declared.facts.Repairs.TheVariants as mode;
ghost use Rattle.classification_tests.specs.Told.{IsNamed};

use crate::reports::{Ready, readied, spacious};
use crate::rows::PAIRS;
use crate::texts::read;
use classifier::{Plan, Summary, classify};
use cq_io::MemSink;
use cq_terms::{Cq, Kb, Repairs, Vocab};
use preparation::Prepared;
use refutation_confirmer::{Confirmed, confirm};
use report_text::LineSink;
use std::alloc::Global;
use std::test::Fail;

/// Writes the report on a query that is prepared for the Pareto-optimal repairs.
fn classified(
    alloc: Global,
    kb: &Kb,
    vocab: &Vocab,
    query: &Cq,
    prepared: &Prepared,
    sink: &mut MemSink,
) -> Result<Summary, Fail>
    requires named { IsNamed kb.now query.now vocab.now }
    requires prepared { IsPrepared kb.now query.now mode.Pareto prepared.now }
{
    let _body = query.body();
    let plan = Plan {
        budget: 10_000,
        keep: 20_000,
        repairs: Repairs::Pareto,
    };
    let mut report = LineSink::new(alloc, sink);
    let summary = classify(
        alloc,
        kb,
        vocab,
        &prepared.closure,
        &prepared.found,
        &prepared.better,
        prepared.candidates.as_slice(),
        &plan,
        &mut report,
    )?;
    Ok(summary)
}

/// The number of answers of a report that is accepted, or the number of the first line that breaks a rule.
fn accepted(
    alloc: Global,
    kb: &Kb,
    vocab: &Vocab,
    query: &Cq,
    report: &[u8],
) -> Result<Result<u64, u64>, Fail> {
    if report.len() > 1 << 20 {
        return Err(Fail::from("a report is long"));
    }
    match confirm(alloc, kb, vocab, query, report)? {
        Confirmed::Yes { answers } => Ok(Ok(answers)),
        Confirmed::No { line, rule: _ } => Ok(Err(line)),
    }
}

/// The number of answers of the report on what is prepared.
fn answers_of(alloc: Global, ready: &Ready, sink: &mut MemSink) -> Result<u64, Fail>
    requires named { IsNamed ready.now.told.kb ready.now.told.query ready.now.told.vocab }
    requires prepared { IsPrepared ready.now.told.kb ready.now.told.query mode.Pareto ready.now.prepared }
{
    let told = &ready.told;
    let summary = classified(
        alloc,
        &told.kb,
        &told.vocab,
        &told.query,
        &ready.prepared,
        sink,
    )?;
    Ok(summary.answers)
}

/// The number of answers of the report on the pairs, which goes into the sink.
fn pairs_classified(alloc: Global, sink: &mut MemSink) -> Result<u64, Fail> {
    let ready = readied(alloc, &PAIRS, Repairs::Pareto)?;
    answers_of(alloc, &ready, sink)
}

/// What is said of a report on the pairs.
fn pairs_accepted(alloc: Global, report: &[u8]) -> Result<Result<u64, u64>, Fail> {
    let told = read(alloc, &PAIRS)?;
    accepted(alloc, &told.kb, &told.vocab, &told.query, report)
}

#[test]
fn a_report_is_written_and_accepted(rt: HostRuntime) -> Result<(), Fail> {
    let mut sink = spacious(rt.alloc(), None)?;
    assert_eq!(rt; pairs_classified(rt.alloc(), &mut sink)?, 1);
    assert!(rt; pairs_accepted(rt.alloc(), sink.written())? == Ok(1));
    Ok(())
}

#[test]
fn an_empty_report_lacks_its_first_line(rt: HostRuntime) -> Result<(), Fail> {
    assert!(rt; pairs_accepted(rt.alloc(), &[])? == Err(1));
    Ok(())
}
