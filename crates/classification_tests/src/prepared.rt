//! What is prepared of inputs that are known, as texts.

ghost use Rattle.std.specs.Prelude.{◌<◌};
ghost use Rattle.priority_graph.specs.Priority.{IsOver};

use crate::reports::readied;
use crate::rows::WATCHERS;
use cause_finder::Candidate;
use cq_steps::Closure;
use cq_terms::{Clash, Repairs};
use preparation::Prepared;
use priority_graph::Better;
use std::alloc::Global;
use std::test::Fail;

/// A part of what is prepared of the watchers.
fn told(alloc: Global, repairs: Repairs, part: Part) -> Result<String, Fail> {
    let ready = readied(alloc, &WATCHERS, repairs)?;
    part_told(alloc, &ready.prepared, part)
}

/// The part of what is prepared.
fn part_told(alloc: Global, prepared: &Prepared, part: Part) -> Result<String, Fail>
    requires over { IsOver prepared.now.better prepared.now.found.conflicts }
{
    match part {
        Part::Closures => closures_told(alloc, prepared),
        Part::Clashes => clashes_told(alloc, prepared.found.conflicts.clashes()),
        Part::Better => better_told(alloc, prepared),
        Part::Candidates => candidates_told(alloc, prepared.candidates.as_slice()),
    }
}

/// A part of what is prepared.
#[derive(Clone, Copy)]
enum Part {
    Closures,
    Clashes,
    Better,
    Candidates,
}

/// How many members the closure of the query has, and those of the disjointnesses, each with its axiom.
fn closures_told(alloc: Global, prepared: &Prepared) -> Result<String, Fail> {
    let count = prepared.closure.members().len();
    let mut text = format!(in alloc; "{count}")?;
    for closure in &prepared.found.closures {
        put_closure(alloc, closure.0, &closure.1, &mut text)?;
    }
    Ok(text)
}

/// Puts the axiom and how many members its closure has behind the text.
fn put_closure(
    alloc: Global,
    axiom: u32,
    closure: &Closure,
    text: &mut String,
) -> Result<(), Fail> {
    let count = closure.members().len();
    text.push_str(&format!(in alloc; " {axiom}:{count}")?)?;
    Ok(())
}

/// The facts of each clash, and the axiom and the member that show it.
fn clashes_told(alloc: Global, clashes: &[Clash]) -> Result<String, Fail> {
    let mut text = String::new(alloc);
    for clash in clashes {
        let facts = clash.facts.as_slice();
        let (axiom, member) = (clash.axiom, clash.member);
        text.push_str(&format!(in alloc; "{facts:?}{axiom}:{member} ")?)?;
    }
    Ok(text)
}

/// The pairs of facts of which the first is better.
fn better_told(alloc: Global, prepared: &Prepared) -> Result<String, Fail>
    requires over { IsOver prepared.now.better prepared.now.found.conflicts }
{
    let mut text = String::new(alloc);
    let facts = prepared.found.conflicts.facts();
    for upper in 0..facts {
        put_better(alloc, upper, facts, &prepared.better, &mut text)?;
    }
    Ok(text)
}

/// Puts the pairs with the fact as the better one behind the text.
fn put_better(
    alloc: Global,
    upper: u32,
    facts: u32,
    better: &Better,
    text: &mut String,
) -> Result<(), Fail>
    requires known { upper < better.now.facts }
{
    for lower in 0..facts {
        if better.over(upper, lower) {
            text.push_str(&format!(in alloc; "{upper}>{lower} ")?)?;
        }
    }
    Ok(())
}

/// The tuple of each candidate, its causes and their members.
fn candidates_told(alloc: Global, candidates: &[Candidate]) -> Result<String, Fail> {
    let mut text = String::new(alloc);
    for candidate in candidates {
        put_candidate(alloc, candidate, &mut text)?;
    }
    Ok(text)
}

/// Puts a candidate behind the text.
fn put_candidate(alloc: Global, candidate: &Candidate, text: &mut String) -> Result<(), Fail> {
    let tuple = candidate.tuple.as_slice();
    text.push_str(&format!(in alloc; "{tuple:?} by")?)?;
    for cause in candidate.causes.as_slice() {
        let facts = cause.as_slice();
        text.push_str(&format!(in alloc; " {facts:?}")?)?;
    }
    let members = candidate.members.as_slice();
    text.push_str(&format!(in alloc; " of {members:?}; ")?)?;
    Ok(())
}

#[test]
fn each_disjointness_has_its_closure(rt: HostRuntime) -> Result<(), Fail> {
    let text = told(rt.alloc(), Repairs::Pareto, Part::Closures)?;
    assert_eq!(rt; text.as_str(), "1 0:1 1:1 2:1 3:1 4:1 5:1 6:1 7:1 8:1 9:1");
    Ok(())
}

#[test]
fn each_conflict_is_shown_by_its_axiom(rt: HostRuntime) -> Result<(), Fail> {
    let text = told(rt.alloc(), Repairs::Pareto, Part::Clashes)?;
    assert_eq!(rt;
        text.as_str(),
        "[0, 1]0:0 [0, 2]3:0 [1, 3]1:0 [1, 4]2:0 [2, 5]4:0 [2, 6]5:0 [3, 5]6:0 [3, 6]7:0 [4, 5]8:0 [4, 6]9:0 "
    );
    Ok(())
}

#[test]
fn pairs_rank_facts_in_conflict(rt: HostRuntime) -> Result<(), Fail> {
    let chosen = told(rt.alloc(), Repairs::Pareto, Part::Better)?;
    assert_eq!(rt; chosen.as_str(), "1>0 2>0 ");
    let all = told(rt.alloc(), Repairs::All, Part::Better)?;
    assert_eq!(rt; all.as_str(), "");
    Ok(())
}

#[test]
fn each_candidate_has_its_causes(rt: HostRuntime) -> Result<(), Fail> {
    let text = told(rt.alloc(), Repairs::Pareto, Part::Candidates)?;
    assert_eq!(rt;
        text.as_str(),
        "[1] by [0, 7] of [0]; [2] by [0, 8] of [0]; "
    );
    Ok(())
}
