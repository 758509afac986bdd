//! The answers to inputs that are known.

ghost use Rattle.std.specs.Prelude.{◌≤◌};
ghost use Rattle.answer_desk.specs.Desks.{most_budget};

use crate::reports::report;
use crate::rows::{EACH, NONE, PAIRS, SOME, SOME_OR_EACH, WATCHERS};
use crate::said::{Said, answers_said, names_said};
use crate::texts::Input;
use classifier::{Summary, Verdicts};
use cq_terms::Repairs;
use std::alloc::Global;
use std::process::Abort;
use std::test::Fail;

/// What the report on the input says of its answers.
fn answers(
    alloc: Global,
    input: &Input<'_>,
    budget: u64,
    repairs: Repairs,
) -> Result<Vec<Said>, Fail>
    requires budget { budget ≤ most_budget }
{
    let written = report(alloc, input, budget, repairs)?;
    answers_said(alloc, written.sink.written())
}

/// What the writer of the report on the input counts.
fn summary(alloc: Global, input: &Input<'_>, budget: u64, repairs: Repairs) -> Result<Summary, Fail>
    requires budget { budget ≤ most_budget }
{
    let written = report(alloc, input, budget, repairs)?;
    Ok(written.summary)
}

/// The answer has these verdicts, and so many clauses were learned for it.
fn is_said(rt: &impl Abort, answer: Said, verdicts: Verdicts, learned: u32) {
    assert_eq!(rt; answer, Said { verdicts, learned });
}

/// There is one answer, with these verdicts, for which so many clauses were learned.
fn is_one(rt: &impl Abort, answers: &[Said], verdicts: Verdicts, learned: u32) {
    assert_eq!(rt; answers.len(), 1);
    is_said(rt, answers[0], verdicts, learned);
}

#[test]
fn without_a_budget_a_question_is_left_open(rt: HostRuntime) -> Result<(), Fail> {
    let answers = answers(rt.alloc(), &PAIRS, 0, Repairs::Pareto)?;
    is_one(&rt, &answers, SOME_OR_EACH, 0);
    Ok(())
}

#[test]
fn one_learned_clause_settles_it(rt: HostRuntime) -> Result<(), Fail> {
    let answers = answers(rt.alloc(), &PAIRS, 1, Repairs::Pareto)?;
    is_one(&rt, &answers, EACH, 1);
    Ok(())
}

#[test]
fn direct_cores_settle_without_a_budget(rt: HostRuntime) -> Result<(), Fail> {
    let input = Input {
        query: "<- Low(?x)",
        ..PAIRS
    };
    let answers = answers(rt.alloc(), &input, 0, Repairs::Pareto)?;
    is_one(&rt, &answers, SOME, 0);
    Ok(())
}

#[test]
fn what_was_learned_for_one_answer_serves_the_next(rt: HostRuntime) -> Result<(), Fail> {
    let answers = answers(rt.alloc(), &WATCHERS, 20000, Repairs::Pareto)?;
    assert_eq!(rt; answers.len(), 2);
    assert_eq!(rt; answers[0].verdicts, NONE);
    assert!(rt; answers[0].learned > 0);
    is_said(&rt, answers[1], NONE, 0);
    Ok(())
}

#[test]
fn over_all_repairs_a_cause_is_in_some(rt: HostRuntime) -> Result<(), Fail> {
    let answers = answers(rt.alloc(), &WATCHERS, 20000, Repairs::All)?;
    assert_eq!(rt; answers.len(), 2);
    is_said(&rt, answers[0], SOME, 0);
    is_said(&rt, answers[1], SOME, 0);
    Ok(())
}

#[test]
fn answers_have_their_names_in_the_order_of_the_facts(rt: HostRuntime) -> Result<(), Fail> {
    let written = report(rt.alloc(), &WATCHERS, 20000, Repairs::Pareto)?;
    let names = names_said(rt.alloc(), written.sink.written())?;
    assert_eq!(rt; names.as_str(), "k1 k2 ");
    Ok(())
}

#[test]
fn an_open_question_is_counted(rt: HostRuntime) -> Result<(), Fail> {
    let open = summary(rt.alloc(), &PAIRS, 0, Repairs::Pareto)?;
    assert_eq!(rt;
        open,
        Summary {
            answers: 1,
            brave: 1,
            ar: 0,
            iar: 0,
            undecided: 1
        }
    );
    Ok(())
}

#[test]
fn settled_questions_are_counted(rt: HostRuntime) -> Result<(), Fail> {
    let settled = summary(rt.alloc(), &PAIRS, 1, Repairs::Pareto)?;
    assert_eq!(rt;
        settled,
        Summary {
            answers: 1,
            brave: 1,
            ar: 1,
            iar: 0,
            undecided: 0
        }
    );
    Ok(())
}
