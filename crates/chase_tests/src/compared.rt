//! Runs on random inputs beside what the definitions say of them.

use crate::cycles::tells_cycle;
use crate::desk::{Ended, classified, confirmed};
use crate::expected::says;
use crate::inputs::Kind;
use crate::tally::Tally;
use crate::texts::{Input, Texts};
use cqapri_cli::Status;
use plain_chase::{Chase, Judged, Judgement, Mode, Outcome, judge};
use std::alloc::Global;
use std::process::Abort;
use std::test::Fail;

/// What the definitions say of the input.
fn judged(alloc: Global, input: &Input, mode: Mode) -> Result<Judgement, Fail> {
    Ok(judge(alloc, &input.facts.table, &input.query, mode)?)
}

/// Whether `classify` says what the definitions say, and `confirm` accepts its report.
fn agrees(alloc: Global, input: &Input, mode: Mode, judgement: &Judgement) -> Result<bool, Fail> {
    let ended = classified(alloc, &input.texts, mode)?;
    match &judgement.outcome {
        Outcome::Cycle => {
            let facts = input.facts.table.facts.as_slice();
            Ok(tells_cycle(alloc, &ended, facts, &judgement.better)?)
        }
        Outcome::Answers(judged) => is_reported(alloc, &input.texts, &ended, judged),
    }
}

/// Whether the run has written a report with these answers and nothing on `err`, and the report is accepted.
fn is_reported(
    alloc: Global,
    texts: &Texts,
    ended: &Ended,
    judged: &[Judged],
) -> Result<bool, Fail> {
    if ended.status != Status::Done || !ended.err.written().is_empty() {
        return Ok(false);
    }
    let report = ended.out.written();
    Ok(says(alloc, report, judged)? && is_accepted(alloc, texts, report, judged.len())?)
}

/// Whether `confirm` accepts the report with so many answers.
fn is_accepted(alloc: Global, texts: &Texts, report: &[u8], answers: usize) -> Result<bool, Fail> {
    let ended = confirmed(alloc, texts, report)?;
    let accepted = format!(in alloc; "accepted {answers}\n")?;
    Ok(
        ended.status == Status::Done
            && ended.err.written().is_empty()
            && ended.out.written() == accepted.as_bytes(),
    )
}

/// How many of the answers the facts don't entail without nulls.
fn by_nulls(alloc: Global, input: &Input, judgement: &Judgement) -> Result<usize, Fail> {
    let table = &input.facts.table;
    let chase = Chase::of(alloc, table.individuals, &table.facts, &table.axioms, 0)?;
    let without = chase.answers(alloc, &input.query)?;
    Ok(answers_of(judgement).saturating_sub(without.len()))
}

/// How many answers there are.
fn answers_of(judgement: &Judgement) -> usize {
    match &judgement.outcome {
        Outcome::Cycle => 0,
        Outcome::Answers(judged) => judged.len(),
    }
}

/// The run in the mode agrees.
fn must_agree(
    rt: &impl Abort,
    alloc: Global,
    input: &Input,
    mode: Mode,
    judgement: &Judgement,
) -> Result<(), Fail> {
    let is_so = agrees(alloc, input, mode, judgement)?;
    let texts = &input.texts;
    let (ontology, facts) = (texts.ontology.as_str(), texts.facts.as_str());
    let (priority, query) = (texts.priority.as_str(), texts.query.as_str());
    assert!(rt;
        is_so,
        "{mode:?}:\n{ontology}\n{facts}\n{priority}\n{query}"
    );
    Ok(())
}

/// The runs on the input of the seed agree in both modes. The tally counts it.
fn compare_one(
    rt: &impl Abort,
    alloc: Global,
    kind: &Kind,
    seed: usize,
    tally: &mut Tally,
) -> Result<(), Fail> {
    let input = Input::draw(alloc, kind, seed)?;
    let all = judged(alloc, &input, Mode::All)?;
    must_agree(rt, alloc, &input, Mode::All, &all)?;
    let chosen = judged(alloc, &input, Mode::Pareto)?;
    must_agree(rt, alloc, &input, Mode::Pareto, &chosen)?;
    tally.count(&all, &chosen, by_nulls(alloc, &input, &all)?);
    Ok(())
}

/// The runs on so many inputs of the kind agree, from the seed on.
pub(crate) fn compare(
    rt: &impl Abort,
    alloc: Global,
    kind: &Kind,
    seed: usize,
    inputs: usize,
) -> Result<Tally, Fail> {
    let mut tally = Tally::default();
    for place in 0..inputs {
        compare_one(rt, alloc, kind, seed.wrapping_add(place), &mut tally)?;
    }
    Ok(tally)
}
